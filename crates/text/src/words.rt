// The words of a text, each between spaces and line ends.
ghost use Rattle.std.specs.Prelude.{◌<◌, ◌^◌, length, IfSome};
ghost use Rattle.std.specs.Iterator.{at_most};

use super::Number;

fn is_space(b: u8) -> bool {
    matches!(b, b' ' | b'\n' | b'\t' | b'\r')
}

// What is left of a text.
#[derive(Drop)]
pub struct Words<'a> {
    pub left: &'a [u8],
}

impl<'a> Iterator for Words<'a> {
    type Item = &'a [u8];

    ghost remaining = { λ words. at_most (length words.left.now) };

    fn next(&mut self) -> Option<&'a [u8]> {
        let start = self.left.iter().position(|b| !is_space(*b))?;
        let behind = &self.left[start + 1..];
        let more = behind
            .iter()
            .position(|b| is_space(*b))
            .unwrap_or(behind.len());
        let end = start + 1 + more;
        let word = &self.left[start..end];
        self.left = &self.left[end..];
        Some(word)
    }
}

impl<'a> Words<'a> {
    // The next word as a number.
    pub fn number(&mut self) -> Option<Number>
        ensures { IfSome result (λ n. n.size < 10 ^ 18) }
    {
        Number::parse(self.next()?)
    }
}
