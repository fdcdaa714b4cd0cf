// The records of a rule file. Records of a kind are numbered from 1; a link is such a number, and 0 ends a chain.
// It is no `Option`: summaries of chains are looked up by link, and that of the empty chain stands at 0.

// Whether moves matter to an atom, and which fluents are true at the start.
#[derive(Clone, Copy)]
pub enum Mark {
    Still,
    Dependent,
    Initial,
}

#[derive(Clone, Copy)]
pub enum Sign {
    Plain,
    Negated,
}

#[derive(Clone, Copy)]
pub struct Atom {
    pub stratum: u16,
    pub mark: Mark,
    pub first: u16,
}

#[derive(Clone, Copy)]
pub struct Rule {
    pub next: u16,
    pub first: u16,
}

#[derive(Clone, Copy)]
pub struct Literal {
    pub atom: u16,
    pub sign: Sign,
    pub next: u16,
}
