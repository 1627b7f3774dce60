//! Words that a line of output is made of.

ghost use Rattle.std.specs.Iterator.{IsFinite};

use crate::digits::Hex;
use std::alloc::AllocError;
use std::fmt;

/// A value: `null`, or `x` and its hexadecimal digits.
#[derive(Clone, Copy)]
pub struct ValueWord<'a>(pub Option<&'a [u8]>);

impl<'a> fmt::Display for ValueWord<'a> {
    fn fmt<W: fmt::Write>(&self, f: &mut fmt::Formatter<W>) -> fmt::Result {
        match self.0 {
            None => write!(f, "null"),
            Some([]) => write!(f, "x"),
            Some(bytes) => write!(f, "x{}", Hex(bytes)),
        }
    }
}

/// A setting of a session: its name, `=` and its value.
#[derive(Clone, Copy)]
pub struct SettingWord<'a> {
    pub name: &'a [u8],
    pub value: &'a [u8],
}

impl<'a> fmt::Display for SettingWord<'a> {
    fn fmt<W: fmt::Write>(&self, f: &mut fmt::Formatter<W>) -> fmt::Result {
        write!(f, "{}={}", Hex(self.name), Hex(self.value))
    }
}

/// Adds items with commas between them, or `-` where there are none.
pub fn push_list<T: fmt::Display + Drop, I: Iterator<Item = T> + Drop>(
    items: I,
    output: &mut String,
) -> Result<(), AllocError>
    requires can { I.can_next items }
    requires ends { IsFinite (I.remaining items) }
{
    let mut is_empty = true;
    for item in items {
        if !is_empty {
            output.push(',')?;
        }
        is_empty = false;
        write!(output, "{item}")?;
    }
    if is_empty {
        output.push('-')?;
    }
    Ok(())
}
