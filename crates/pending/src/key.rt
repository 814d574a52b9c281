// What a key of a once-pending list is.
ghost use Rattle.std.specs.Prelude.{◌≡◌, ℕ, ◌<◌};
ghost use Rattle.std.specs.Option.{option_map};
ghost use Rattle.pending.specs.Keys.{number_below};

// Stands for no key.
pub const NONE: u8 = 255;

// A kind of key: each has a number from 0 to 254, which leads back to it.
// Two methods of its own: bounds on `From` and `TryFrom` would want laws that tie their results to `code`, and be no plainer.
pub trait Key: Sized {
    // Its number.
    ghost code: { Self → ℕ };

    fn number(&self) -> u8
        ensures { result ≡ code self.now };

    // The key of that number; 255 is no key's.
    fn from_number(number: u8) -> Option<Self>
        ensures { option_map code result ≡ number_below 255 number };

    ghost below: { (k : Self) → code k < 255 };

    // One number, one key.
    ghost same: { (j k : Self) → code j ≡ code k → j ≡ k };
}
