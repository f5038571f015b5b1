//! Two texts compared.
ghost use Rattle.std.specs.Prelude.{◌≡◌};
ghost use Rattle.text.specs.Split.{same_text};

/// Are two texts the same, byte for byte? Stays a function of its own: what it promises is `same_text`, by which names and the ends of goals are told apart.
pub fn same(a: &[u8], b: &[u8]) -> bool
    ensures { result ≡ same_text a.now b.now }
{
    a == b
}
