// How a gate begins: `all(`, `any(`, or a digit and `of(`.
#[derive(Clone, Copy)]
pub enum Head {
    All,
    Any,
    Of(u8),
}

impl Head {
    ghost use Rattle.std.specs.Prelude.{◌≡◌};
    ghost use Rattle.rules.specs.Faults.{threshold, fits};

    // May a gate close with so many items?
    pub(crate) fn may_close(self, n: u8) -> bool
        ensures { result ≡ fits self n }
    {
        match self {
            Head::All | Head::Any => 2 <= n,
            Head::Of(k) => k < n,
        }
    }

    // How many of its n items a gate wants.
    pub(crate) fn wanted(self, n: u8) -> u8
        ensures { result ≡ threshold self n }
    {
        match self {
            Head::All => n,
            Head::Any => 1,
            Head::Of(k) => k,
        }
    }
}
