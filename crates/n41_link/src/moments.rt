// What tells the time.
ghost use Rattle.std.specs.Prelude.{◌≡◌, ◌≤◌, ◌⊎◌, ℕ, List, Bool, IsTrue};
ghost use Rattle.std.specs.declared.option.Option.{Option};
ghost use Rattle.n41_link.specs.Moments.{StandsAt, moved_on};

/// Gives moments in whole seconds, which never fall.
pub trait Clock {
    /// The moment that it gave last.
    ghost last: { Self → ℕ };

    /// The moments that `gave` is true of.
    ghost given: { Self → ℕ → Bool };

    /// Whether those are the moments that it has given alone.
    ghost tells: { Self → Bool };

    /// The moment at which it stands and those to come, where they are told.
    ghost ahead: { Self → Option (List ℕ) };

    /// The moment now, in whole seconds. A smaller one than the last is taken as the last.
    fn now(&mut self) -> u64
        ensures last { result ≡ last self.new }
        ensures later { last self.old ≤ last self.new }
        ensures stands { StandsAt (ahead self.old) (last self.old) result }
        ensures given { IsTrue (given self.new result) }
        ensures keeps { (m : ℕ) → IsTrue (given self.old m) → IsTrue (given self.new m) }
        ensures alone { IsTrue (tells self.old) → (m : ℕ) → IsTrue (given self.new m) → IsTrue (given self.old m) ⊎ (m ≡ result) }
        ensures tells { tells self.new ≡ tells self.old }
        ensures ahead { ahead self.new ≡ ahead self.old };

    /// Lets this many milliseconds pass, or in memory moves to the next moment where there is one.
    fn pause(&mut self, ms: u64)
        ensures last { last self.new ≡ last self.old }
        ensures given { given self.new ≡ given self.old }
        ensures tells { tells self.new ≡ tells self.old }
        ensures moves { ahead self.new ≡ moved_on (ahead self.old) };

    /// Whether it has given this moment, as far as it tells. It takes no memory.
    fn gave(&self, moment: u64) -> bool
        ensures { result ≡ given self.now moment };
}
