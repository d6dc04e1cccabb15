ghost use Rattle.std.specs.Prelude.{◌≡◌};
ghost use Rattle.driver_rules.specs.Rules.{first_broken};

/// The code of the first rule that doesn't hold, or 0. Each rule is its code and whether it holds.
pub fn first_broken(rules: &[(u32, bool)]) -> u32
    ensures { result ≡ first_broken rules.now }
{
    for (code, holds) in rules {
        if !*holds {
            return *code;
        }
    }
    0
}
