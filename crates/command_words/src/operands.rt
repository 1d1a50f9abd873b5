//! The operands that were given.
ghost use Rattle.std.specs.Prelude.{◌≡◌, ◌≢◌, All, Contains, MatchOption};
ghost use Rattle.command_words.specs.Operands.{IsOperand, operand_word, operands_of, name_text, value_of};
ghost use Rattle.command_words.specs.declared.operands.Operand.{Operand as OperandOf};

use crate::command::Verb;
use crate::table::{MOST_OPERANDS, Name};
use crate::values::{Value, read_value};
use arrayvec::ArrayVec;
use value_text::cut;

/// An operand.
#[derive(Drop)]
pub struct Operand {
    /// Its name.
    pub name: Name,
    /// Its value.
    pub value: Value,
}

/// What stands in the unused room of a list of operands.
impl Default for Operand {
    ghost is_default = { λ _. Unit {0} };

    fn default() -> Self {
        Operand {
            name: Name::Levels,
            value: Value::Number(0),
        }
    }
}

/// Operands, each name at most once.
pub type Operands = ArrayVec<Operand, MOST_OPERANDS>;

/// The operand of the command that the whole word spells: its name, `=`, and its value within its limits.
pub fn read_operand(verb: Verb, word: &[u8]) -> Option<Operand>
    ensures { MatchOption result
        ((o : OperandOf) → IsOperand verb o → word.now ≢ operand_word o)
        (λ o. IsOperand verb o × (word.now ≡ operand_word o)) }
{
    let (text, value_text) = cut(word, b'=')?;
    let name = find_name(verb, text)?;
    let value = read_value(name.kind(verb), value_text)?;
    Some(Operand { name, value })
}

/// The operand of the command that is named so.
fn find_name(verb: Verb, text: &[u8]) -> Option<Name>
    ensures { MatchOption result
        (All (λ name. text.now ≢ name_text name) (operands_of verb))
        (λ name. Contains (operands_of verb) name × (text.now ≡ name_text name)) }
{
    for name in verb.operands() {
        if name.text().as_bytes() == text {
            return Some(*name);
        }
    }
    None
}

/// The value of the operand of this name.
pub fn find_value(operands: &[Operand], name: Name) -> Option<&Value>
    ensures { MatchOption result (value_of name operands.entry.now ≡ None) (λ value. value_of name operands.entry.now ≡ Some value.now) }
{
    for operand in operands {
        if operand.name.text() == name.text() {
            return Some(&operand.value);
        }
    }
    None
}
