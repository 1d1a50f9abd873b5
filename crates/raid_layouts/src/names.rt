//! The names of layouts.
ghost use Rattle.std.specs.Prelude.{◌≡◌};
ghost use Rattle.std.specs.Option.{option_map};
ghost use Rattle.raid_layouts.specs.Names.{ddf_name as ddf_name_of, last_q_name as last_q_name_of, name_of, rotation_name as rotation_name_of, striping_name as striping_name_of};

use raid_params::{Level, Pattern, Syndrome};

/// The name of a layout, or None where it has none. At levels 5 and 6 mdadm's `--layout` takes it; at
/// level 0 it is `raid0`, the name of the level. The names of md itself go with the order of Q after Q,
/// the DDF names with the order by slots.
pub fn md_name(level: Level, pattern: Pattern, syndrome: Syndrome) -> Option<&'static str>
    ensures { option_map (λ s. s.now) result ≡ name_of level pattern syndrome }
{
    match (level, syndrome) {
        (Level::Raid0, Syndrome::NoQ) => striping_name(pattern),
        (Level::Raid5, Syndrome::NoQ) => rotation_name(pattern),
        (Level::Raid6, Syndrome::AfterQ) => last_q_name(pattern),
        (Level::Raid6, Syndrome::BySlot) => ddf_name(pattern),
        _ => None,
    }
}

/// The name of a pattern of level 0.
fn striping_name(pattern: Pattern) -> Option<&'static str>
    ensures { option_map (λ s. s.now) result ≡ striping_name_of pattern }
{
    match pattern {
        Pattern::Plain => Some("raid0"),
        _ => None,
    }
}

/// The name of a pattern of level 5, which level 6 has too.
fn rotation_name(pattern: Pattern) -> Option<&'static str>
    ensures { option_map (λ s. s.now) result ≡ rotation_name_of pattern }
{
    match pattern {
        Pattern::La => Some("left-asymmetric"),
        Pattern::Ra => Some("right-asymmetric"),
        Pattern::Ls => Some("left-symmetric"),
        Pattern::Rs => Some("right-symmetric"),
        Pattern::ParityFirst => Some("parity-first"),
        Pattern::ParityLast => Some("parity-last"),
        _ => None,
    }
}

/// The name of a pattern of level 6: one that has Q on the last slot, or one that level 5 has too.
fn last_q_name(pattern: Pattern) -> Option<&'static str>
    ensures { option_map (λ s. s.now) result ≡ last_q_name_of pattern }
{
    match pattern {
        Pattern::La6 => Some("left-asymmetric-6"),
        Pattern::Ra6 => Some("right-asymmetric-6"),
        Pattern::Ls6 => Some("left-symmetric-6"),
        Pattern::Rs6 => Some("right-symmetric-6"),
        Pattern::ParityFirst6 => Some("parity-first-6"),
        _ => rotation_name(pattern),
    }
}

/// The name of a pattern of DDF.
fn ddf_name(pattern: Pattern) -> Option<&'static str>
    ensures { option_map (λ s. s.now) result ≡ ddf_name_of pattern }
{
    match pattern {
        Pattern::Ra => Some("ddf-zero-restart"),
        Pattern::NRestart => Some("ddf-N-restart"),
        Pattern::NContinue => Some("ddf-N-continue"),
        _ => None,
    }
}
