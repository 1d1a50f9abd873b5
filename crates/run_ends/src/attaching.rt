//! Attaching the images of the words.
ghost use Rattle.std.specs.Prelude.{◌≡◌, ◌+◌, ◌≤◌, ◌<◌, length, All, IsTrue, OnErr, OnOk, [], min};
ghost use Rattle.outside.specs.Attached.{AttachesSome};
ghost use Rattle.outside.specs.Causes.{HasCause};

use command_words::Word;
use outside::{Failed, Images, MOST_ATTACHED};

/// Attaches the images of these names, in their order.
#[tactic(auto, using(crate::proofs::OneByOne::none_attached, crate::proofs::OneByOne::attached_more, crate::proofs::OneByOne::attached_no_more))]
fn attach_all<I: Images>(images: &mut I, names: &[Word]) -> Result<(), Failed>
    requires room { length (I.seen images.old).attached + length names.now ≤ MOST_ATTACHED }
    requires named { All (λ name. IsTrue ((I.seen images.old).world.may_attach name)) names.now }
    ensures some { AttachesSome (I.seen images.old) (I.seen images.new) names.now }
    ensures all { OnOk result (length (I.seen images.new).attached ≡ length (I.seen images.old).attached + length names.now) }
    ensures fewer { OnErr result (length (I.seen images.new).attached < length (I.seen images.old).attached + length names.now) }
    ensures cause { HasCause (I.seen images.old).faults (I.seen images.new).faults result }
{
    for name in names {
        images.attach(name.as_str())?;
    }
    Ok(())
}

/// Attaches the images of the names in their order, of the first `MOST_ATTACHED` names at most. Without
/// names nothing is touched.
#[tactic(auto, using(crate::proofs::OneByOne::attached_front, crate::proofs::OneByOne::none_attached))]
pub fn attach_front<I: Images>(images: &mut I, names: &[Word]) -> Result<(), Failed>
    requires fresh { (I.seen images.old).attached ≡ [] }
    requires named { All (λ name. IsTrue ((I.seen images.old).world.may_attach name)) names.now }
    ensures some { AttachesSome (I.seen images.old) (I.seen images.new) names.now }
    ensures none { names.now ≡ [] → I.seen images.new ≡ I.seen images.old }
    ensures all { OnOk result (length (I.seen images.new).attached ≡ min (length names.now) MOST_ATTACHED) }
    ensures fewer { OnErr result (length (I.seen images.new).attached < min (length names.now) MOST_ATTACHED) }
    ensures cause { HasCause (I.seen images.old).faults (I.seen images.new).faults result }
{
    if names.is_empty() {
        return Ok(());
    }
    attach_all(images, &names[..names.len().min(MOST_ATTACHED)])
}
