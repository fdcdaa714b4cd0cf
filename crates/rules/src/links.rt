ghost use Rattle.std.specs.Prelude.{◌≡◌};
ghost use Rattle.rules.specs.First.{next_fits};

// Whether the link of a record, of so many, is 0 or names a later record.
pub fn leads_later(from: u16, count: u16, link: u16) -> bool
    ensures { result ≡ next_fits from count link }
{
    link == 0 || (link > from && link <= count)
}
