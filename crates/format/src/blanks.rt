// A line without the blanks around it.
ghost use Rattle.std.specs.Prelude.{◌≡◌};
ghost use Rattle.format.specs.Fields.{is_blank, trimmed_line, without_first_blanks, without_last_blanks};

// Whether a byte around a line is dropped: a blank, a tab or a carriage return.
fn is_blank(byte: u8) -> bool
    ensures { result ≡ is_blank byte }
{
    matches!(byte, b' ' | b'\t' | b'\r')
}

// A line without the blanks that it begins with.
fn without_first_blanks(line: &[u8]) -> &[u8]
    ensures { result.now ≡ without_first_blanks line.now }
{
    match line.iter().position(|byte| !is_blank(*byte)) {
        Some(blanks) => &line[blanks..],
        None => b"",
    }
}

// A line without the blanks that it ends with.
fn without_last_blanks(line: &[u8]) -> &[u8]
    ensures { result.now ≡ without_last_blanks line.now }
{
    match line.iter().rev().position(|byte| !is_blank(*byte)) {
        Some(blanks) => &line[..line.len() - blanks],
        None => b"",
    }
}

// A line without the blanks around it.
pub fn trimmed(line: &[u8]) -> &[u8]
    ensures { result.now ≡ trimmed_line line.now }
{
    without_last_blanks(without_first_blanks(line))
}
