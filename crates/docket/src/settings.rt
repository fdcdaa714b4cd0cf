ghost use Rattle.std.specs.Prelude.{◌≡◌};
ghost use Rattle.docket.specs.Cleared.{Zeroed};

// The lent settings. They are zero when the guard ends, on every way out.
pub struct Settings<'a> {
    pub bytes: &'a mut [u8],
}

impl Drop for Settings<'_> {
    fn drop(self)
        ensures { Zeroed self.exit.0.now }
    {
        self.bytes.fill(0);
        let Settings { bytes: _ } = self;
    }
}

impl<'a> Settings<'a> {
    pub fn new(bytes: &'a mut [u8]) -> Settings<'a>
        ensures lender { result.bytes.ghost_name ≡ bytes.entry.ghost_name }
        ensures same { result.bytes.now ≡ bytes.old }
    {
        Settings { bytes }
    }
}
