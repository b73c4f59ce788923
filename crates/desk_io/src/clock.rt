//! What time it is.

ghost use Rattle.std.specs.Prelude.{◌≡◌, IfSome};
ghost use Rattle.std.specs.Option.{option_map};
ghost use Rattle.desk_io.specs.Moments.{moment_now, moments_left};

/// A clock, which may tell the moments that it will answer.
pub trait Clock {
    ghost use Rattle.std.specs.Prelude.{ℕ, List, Option};

    ghost moments: { Self → Option (List ℕ) };

    /// The moment now, in seconds since 1970. It is the first of the moments, where they are told; the last one comes again, and where there is none it is 0.
    fn now(&mut self) -> u64
        ensures moment { IfSome (moments self.old) (λ told. result ≡ moment_now told) }
        ensures left { moments self.new ≡ option_map moments_left (moments self.old) };
}
