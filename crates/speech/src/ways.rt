// How an action can end, entered quiet or spoken, by value; and both as a byte.
ghost use Rattle.std.specs.Prelude.{◌≡◌, ◌≤◌, ◌<◌, length, get_or};
ghost use Rattle.model.specs.Image.{none};
ghost use Rattle.model.specs.Speech.{nowhere, either, entered, needs, quiet_loop};
ghost use Rattle.speech.specs.Both.{ways_of, both_of, digit, unpacked_ways, Packed, unpacked, entering, kept, nowhere_both, said, spoken_needs, either_of, followed, looped_while, looped_for};
ghost use Rattle.speech.specs.Filled.{first_of};

use model::Image;

// How an action entered in one mode can end, and whether all that can be entered is right.
#[derive(Clone, Copy)]
pub struct Ways {
    pub right: bool,
    pub quiet: bool,
    pub spoken: bool,
}

impl Ways {
    fn nowhere() -> Ways
        ensures { ways_of result ≡ nowhere }
    {
        Ways {
            right: true,
            quiet: false,
            spoken: false,
        }
    }

    fn either(self, other: Ways) -> Ways
        ensures { ways_of result ≡ either (ways_of self) (ways_of other) }
    {
        Ways {
            right: self.right & other.right,
            quiet: self.quiet | other.quiet,
            spoken: self.spoken | other.spoken,
        }
    }

    fn entered(self, can: bool) -> Ways
        ensures { ways_of result ≡ entered can (ways_of self) }
    {
        if can { self } else { Ways::nowhere() }
    }

    fn needs(self, test: bool) -> Ways
        ensures { ways_of result ≡ needs test (ways_of self) }
    {
        Ways {
            right: test & self.right,
            quiet: self.quiet,
            spoken: self.spoken,
        }
    }

    // What comes next is entered in each mode in which this can end.
    fn then(self, quiet: Ways, spoken: Ways) -> Ways
        ensures { ways_of result ≡ entering (ways_of self) (ways_of quiet) (ways_of spoken) }
    {
        quiet
            .entered(self.quiet)
            .either(spoken.entered(self.spoken))
            .needs(self.right)
    }

    fn quiet_loop(self) -> Ways
        ensures { ways_of result ≡ quiet_loop (ways_of self) }
    {
        let quiet = Ways {
            right: true,
            quiet: true,
            spoken: false,
        };
        quiet.needs(self.right & !self.spoken)
    }

    // Three bits, with m above them.
    fn packed(self, m: u8) -> u8
        requires { m < 8 }
        ensures { Packed result (ways_of self) m }
    {
        bit(self.right) + 2 * bit(self.quiet) + 4 * bit(self.spoken) + 8 * m
    }

    fn unpacked(b: u8) -> Ways
        ensures { ways_of result ≡ unpacked_ways b }
    {
        Ways {
            right: b % 2 == 1,
            quiet: b / 2 % 2 == 1,
            spoken: b / 4 % 2 == 1,
        }
    }
}

// The ways of an action entered quiet, and entered spoken.
#[derive(Clone, Copy)]
pub struct Modes {
    pub quiet: Ways,
    pub spoken: Ways,
}

// One bit.
fn bit(b: bool) -> u8
    ensures { (result ≡ digit b) × (result ≤ 1) }
{
    if b { 1 } else { 0 }
}

impl Modes {
    // Null, an assignment and a reset end in the mode in which they are entered.
    pub fn kept() -> Modes
        ensures { both_of result ≡ kept }
    {
        Modes {
            quiet: Ways {
                right: true,
                quiet: true,
                spoken: false,
            },
            spoken: Ways {
                right: true,
                quiet: false,
                spoken: true,
            },
        }
    }

    // A jump never ends, nor does a list without rows.
    pub fn nowhere() -> Modes
        ensures { both_of result ≡ nowhere_both }
    {
        Modes {
            quiet: Ways {
                right: true,
                quiet: false,
                spoken: false,
            },
            spoken: Ways {
                right: true,
                quiet: false,
                spoken: false,
            },
        }
    }

    // A communication; entered spoken it would be the second.
    pub fn said() -> Modes
        ensures { both_of result ≡ said }
    {
        Modes {
            quiet: Ways {
                right: true,
                quiet: false,
                spoken: true,
            },
            spoken: Ways {
                right: false,
                quiet: false,
                spoken: true,
            },
        }
    }

    // Wrong where it is entered spoken, unless the test passes.
    pub fn spoken_needs(self, test: bool) -> Modes
        ensures { both_of result ≡ spoken_needs test (both_of self) }
    {
        let quiet = self.quiet;
        let spoken = self.spoken;
        Modes {
            quiet,
            spoken: spoken.needs(test),
        }
    }

    pub fn either(self, other: Modes) -> Modes
        ensures { both_of result ≡ either_of (both_of self) (both_of other) }
    {
        let quiet = self.quiet;
        let spoken = self.spoken;
        Modes {
            quiet: quiet.either(other.quiet),
            spoken: spoken.either(other.spoken),
        }
    }

    pub fn then(self, next: Modes) -> Modes
        ensures { both_of result ≡ followed (both_of self) (both_of next) }
    {
        let quiet = self.quiet;
        let spoken = self.spoken;
        Modes {
            quiet: quiet.then(next.quiet, next.spoken),
            spoken: spoken.then(next.quiet, next.spoken),
        }
    }

    // A while entered spoken is wrong, and nothing after it is entered.
    pub fn while_loop(self) -> Modes
        ensures { both_of result ≡ looped_while (both_of self) }
    {
        let body = self.quiet;
        Modes {
            quiet: body.quiet_loop(),
            spoken: Ways {
                right: false,
                quiet: false,
                spoken: false,
            },
        }
    }

    // A for entered spoken ends, so only its body is judged.
    pub fn for_loop(self) -> Modes
        ensures { both_of result ≡ looped_for (both_of self) }
    {
        let quiet = self.quiet;
        let spoken = self.spoken;
        let over = Ways {
            right: true,
            quiet: false,
            spoken: true,
        };
        Modes {
            quiet: quiet.quiet_loop(),
            spoken: over.needs(spoken.right),
        }
    }

    // Six bits of a byte.
    pub fn packed(self) -> u8
        ensures { unpacked result ≡ both_of self }
    {
        let quiet = self.quiet;
        let spoken = self.spoken;
        quiet.packed(spoken.packed(0))
    }

    fn unpacked(b: u8) -> Modes
        ensures { both_of result ≡ unpacked b }
    {
        Modes {
            quiet: Ways::unpacked(b),
            spoken: Ways::unpacked(b / 8),
        }
    }

    // What the pass has filled in for a row.
    pub fn at(ways: &[u8], r: u16) -> Modes
        requires { r < length ways.now }
        ensures { both_of result ≡ unpacked (get_or ways.now r 0) }
    {
        let at = r as usize;
        Modes::unpacked(ways[at])
    }

    // The same for a list, by its first row or none.
    pub fn first(ways: &[u8], r: u16) -> Modes
        requires { (r ≡ none → ⊥) → r < length ways.now }
        ensures { both_of result ≡ first_of ways.now r }
    {
        if r == Image::NONE {
            Modes::nowhere()
        } else {
            Modes::at(ways, r)
        }
    }
}
