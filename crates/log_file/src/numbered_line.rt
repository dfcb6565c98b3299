//! A line of a text, by its number.

ghost use Rattle.std.specs.Prelude.{◌≡◌};
ghost use Rattle.log_file.specs.Log.{line, lines_of};

/// Line `number` of a text, counted from 1, without its line feed; empty if there is none.
pub fn line_of(text: &[u8], number: u64) -> &[u8]
    ensures { result.now ≡ line (lines_of text.now) number }
{
    let Some(before) = number.checked_sub(1) else {
        return &[];
    };
    text.split(|byte| *byte == b'\n')
        .nth(before as usize)
        .unwrap_or(&[])
}
