//! How the operand of an atomic is written.
ghost use Rattle.std.specs.Prelude.{◌≡◌, ◌<◌, ◌≤◌, ◌^◌, ◌++◌, OnOk, length, string_bytes};
ghost use Rattle.fab_model.specs.Target.{number_of, span};
ghost use Rattle.fab_spell.specs.Elements.{value_word, values_word};

use fab_base::{NoMemory, Num};
use fab_grammar::greatest;

/// The number that these bytes say, the lowest first.
fn number_of(bytes: &[u8]) -> u64
    requires { length bytes.now ≤ 8 }
    ensures value { result ≡ number_of bytes.now }
    ensures fits { result < 256 ^ length bytes.now }
{
    let mut number = 0;
    for i in (0..bytes.len()).rev() {
        number = number * 256 + u64::from(bytes[i]);
    }
    number
}

/// An element, with `-` where it is below zero in two's complement.
fn add_value(out: &mut String, num: Num, value: u64) -> Result<(), NoMemory>
    requires { value < span num }
    ensures { OnOk result (string_bytes out.new ≡ string_bytes out.old ++ value_word num value) }
{
    let greatest = greatest(num);
    if value <= greatest {
        write!(out, "{value}")?;
    } else {
        let least = greatest + 1;
        write!(out, "-{}", least - (value - least))?;
    }
    Ok(())
}

/// The elements of these bytes, joined by commas.
#[tactic(auto, unfolding(crate::specs::Elements::values_word))]
pub fn add_values(out: &mut String, num: Num, values: &[u8]) -> Result<(), NoMemory>
    ensures { OnOk result (string_bytes out.new ≡ string_bytes out.old ++ values_word num values.now) }
{
    let size = num.element_size();
    let mut separator = "";
    let mut rest = values;
    while rest.len() >= size {
        let (element, after) = rest.split_at(size);
        out.push_str(separator)?;
        add_value(out, num, number_of(element))?;
        separator = ",";
        rest = after;
    }
    Ok(())
}
