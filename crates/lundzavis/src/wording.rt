// Lists and counts in words.
ghost use Rattle.std.specs.Iterator.{IsFinite};

use std::fmt;

// How a list of numbers is worded: what stands before each number, what stands between two, and what is said where there is none.
#[derive(Clone, Copy)]
pub struct Wording<'a> {
    pub each: &'a str,
    pub between: &'a str,
    pub none: &'a str,
}

// The fluents of a position that is shown.
pub const FLUENTS: Wording<'static> = Wording {
    each: " fluent ",
    between: ",",
    none: " no fluent",
};

impl Wording<'_> {
    pub fn write<W: fmt::Write, I: Iterator<Item = usize> + Drop>(
        self,
        f: &mut fmt::Formatter<W>,
        mut numbers: I,
    ) -> fmt::Result
        requires next { I.Iterator.can_next numbers }
        requires finite { IsFinite (I.Iterator.remaining numbers) }
    {
        let Some(first) = numbers.next() else {
            return f.write_str(self.none);
        };
        write!(f, "{}{first}", self.each)?;
        for number in numbers {
            write!(f, "{}{}{number}", self.between, self.each)?;
        }
        Ok(())
    }
}

// How many there are of what the name says, as `1 role` or `2 roles`.
#[derive(Clone, Copy)]
pub struct Count(pub u16, pub &'static str);

impl fmt::Display for Count {
    fn fmt<W: fmt::Write>(&self, f: &mut fmt::Formatter<W>) -> fmt::Result {
        let Count(n, name) = *self;
        let plural = if n == 1 { "" } else { "s" };
        write!(f, "{n} {name}{plural}")
    }
}
