//! The texts.
ghost use Rattle.std.specs.Prelude.{◌≡◌};
ghost use Rattle.program_texts.specs.Texts.{help_text as help_text_of, nbd_help_text as nbd_help_text_of, nbd_version_text as nbd_version_text_of, version_text as version_text_of};

/// How `reraid` is used: each command with its operands and one example, the statuses, and where the manual is.
#[tactic(auto, unfolding(crate::specs::Texts::help_text))]
pub fn help_text() -> &'static str
    ensures { result.now ≡ help_text_of }
{
    "\
usage: reraid COMMAND [NAME=VALUE..] -- [IMAGE..]
       reraid --help (or -h, or help)
       reraid --version

Finds how a striped array (RAID 0, 4, 5, 6 or 10) was laid out, from raw images
of its disks. It only reads the images. Operands come in any order.

  relations [from=ROW] [end=ROW] [step=ROWS] [offsets=A+B..] [form=FORM]
            -- IMAGE..
      how the images depend on one another, before any layout is known
      reraid relations -- *.img
  survey [levels=LIST] [members=LIST] [patterns=LIST] [delays=LIST]
         [syndromes=LIST] [chunks=LIST] [offsets=LIST] [origins=LIST]
         [missing=M] [foreign=F] [badrows=B] [misfits=M] [least=F] [window=W]
         [end=END] [kinds=LIST] [drop=LIST] [mode=MODE] [logical=BYTES]
         -- IMAGE..  > PLAN
      the plan of a search, with the landmarks that the images hold
      reraid survey levels=5 members=3 missing=1 -- a.img b.img > plan
  list [from=RANK] [size=LINES] [span=RANKS] [pages=PAGES] [form=FORM]
       -- IMAGE..  < PLAN
      the layouts of the plan that pass its tests
      reraid list -- a.img b.img < plan > listing
  check set=SET -- IMAGE..  < PLAN
      the tests of one layout
      reraid check set=5:ls:none:128:2048:0,-,1 -- a.img b.img < plan
  map set=SET sector=SECTOR [end=END] -- IMAGE..
      the place of a sector of the volume of a layout
      reraid map set=5:ls:none:128:2048:0,-,1 sector=0 -- a.img b.img
  write set=SET [end=END] -- IMAGE..  > VOLUME
      the volume of a layout
      reraid write set=5:ls:none:128:2048:0,-,1 -- a.img b.img > volume
  rebuild set=SET slot=SLOT [end=END] -- IMAGE..  > MEMBER
      the member of an empty slot
      reraid rebuild set=5:ls:none:128:2048:0,-,1 slot=1 -- a.img b.img > member
  sample number=NUMBER set=SET rows=ROWS [marks=MARKS] --
      what a search finds of an array that is made in memory
      reraid sample number=1 set=5:ls:none:8:0:0,1,2 rows=64 --
  classes images=IMAGES end=END --  < LINES
      the layouts of a listing that give equal volumes, whatever the images hold
      reraid classes images=2 end=18432 -- < listing
  mirrors [layouts=LIST] [members=LIST] [chunks=LIST] [offsets=LIST]
          [missing=M] [foreign=F] [badrows=B] [window=W] [end=END] [from=RANK]
          [size=LINES] [span=RANKS] -- IMAGE..
      the layouts of RAID 10 that pass: near2, if LIST is not given
      reraid mirrors chunks=128 offsets=2048 -- a.img b.img c.img d.img
  mirrorwrite set=NEARSET [end=END] -- IMAGE..  > VOLUME
      the volume of such a layout
      reraid mirrorwrite set=near2:128:2048:0,1 -- a.img b.img > volume
  salvage set=SET [form=FORM] [end=END] -- IMAGE..  < MAPS
      the volume of images that could not be read everywhere, by the maps of
      ddrescue, or what of it is lost
      reraid salvage set=5:ls:none:128:2048:0,-,1 -- a.img b.img < maps > volume

Exit status; each but 0 comes with a line on standard error:
   0  the answer was printed, whole
   1  an argument is refused
   2  the plan is not understood from a line on
   3  the plan, the list of layouts or the maps are longer than 4194304 bytes
   4  the images are not those that the plan or the command takes
   5  there are 2^64 layouts or more
   6  the first rank is past the total
   7  the layout or the slot breaks a rule
   8  the sector is past the end of the volume
   9  the maps are not understood from a line on
  10  an image could not be opened or read
  11  standard input could not be read
  12  standard output could not be written
  13  the list of layouts is not understood from a line on
  20  out of memory

The manual: reraid(1), and USING.md, FORMATS.md and more in share/doc/reraid.
"
}

/// The version of `reraid`, which is that of the whole repository.
#[tactic(auto, unfolding(crate::specs::Texts::version_text))]
pub fn version_text() -> &'static str
    ensures { result.now ≡ version_text_of }
{
    "reraid 0.9.0\n"
}

/// How `reraid-nbd` is used.
#[tactic(auto, unfolding(crate::specs::Texts::nbd_help_text))]
pub fn nbd_help_text() -> &'static str
    ensures { result.now ≡ nbd_help_text_of }
{
    "\
usage: reraid-nbd set=SET [maps=FILE] [end=END] -- IMAGE..
       reraid-nbd --help
       reraid-nbd --version

Serves the volume of a layout as a read-only network block device (NBD). It
serves one client over standard input and output. If a socket is handed to it
(LISTEN_FDS), it serves all clients that connect. It only reads the images.

  set=SET    a layout of reraid list, LEVEL:PATTERN:ORDER:CHUNK:OFFSET:SLOTS, or
             of reraid mirrors, LAYOUT:CHUNK:OFFSET:SLOTS. Chunk and offset are
             in sectors of 512 bytes. A slot is the number of its image, from 0
             in the order of the names, or - for a missing disk.
  maps=FILE  the maps of ddrescue in one file, as reraid salvage takes them.
             Bad areas are solved by parity or read from another copy. What
             neither gives cannot be read.
  end=END    the image sector after the last that may belong to the array; if it
             is not given, the length of the shortest image
  --         what follows are images

A copy of the volume:
  nbdcopy -- [ reraid-nbd set=5:ls:none:128:2048:0,-,1 -- a.img b.img ] copy

Exit status; each but 0 comes with a line on standard error:
   0  the client ended the dialogue
   1  an argument is refused
   3  the maps are too long
   4  the images are not those that the layout takes
   7  the layout breaks a rule
   9  the maps are no such text from a line on
  10  an image could not be opened
  11  standard input could not be read
  12  standard output could not be written
  14  the client sent what the protocol does not allow
  15  the volume has 2^63 bytes or more
  16  the maps could not be opened or read
  20  out of memory

The manual: reraid-nbd(1), and USING.md and more in share/doc/reraid.
"
}

/// The version of `reraid-nbd`.
#[tactic(auto, unfolding(crate::specs::Texts::nbd_version_text))]
pub fn nbd_version_text() -> &'static str
    ensures { result.now ≡ nbd_version_text_of }
{
    "reraid-nbd 0.9.0\n"
}
