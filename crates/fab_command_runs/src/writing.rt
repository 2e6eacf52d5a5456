//! The rows of the text.
ghost use Rattle.std.specs.Prelude.{◌≡◌, ◌++◌, OnOk, string_bytes};
ghost use Rattle.fab_command_runs.specs.Texts.{first_row, row, rows};

use fab_base::NoMemory;

/// The first row.
pub(crate) fn add_first(out: &mut String, words: u32, peers: u32, adds: u32) -> Result<(), NoMemory>
    ensures { OnOk result (string_bytes out.new ≡ string_bytes out.old ++ first_row words peers adds) }
{
    write!(out, "window words {words} peers {peers} adds {adds}\n")?;
    Ok(())
}

fn add_row(out: &mut String, i: usize, value: u64) -> Result<(), NoMemory>
    ensures { OnOk result (string_bytes out.new ≡ string_bytes out.old ++ row i value) }
{
    write!(out, "word {i} {value}\n")?;
    Ok(())
}

/// A row for each value, by its place.
pub(crate) fn add_rows(out: &mut String, values: &[u64]) -> Result<(), NoMemory>
    ensures { OnOk result (string_bytes out.new ≡ string_bytes out.old ++ rows 0 values.now) }
{
    for (i, value) in values.iter().enumerate() {
        add_row(out, i, *value)?;
    }
    Ok(())
}
