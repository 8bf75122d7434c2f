//! Who is in which group.
ghost use Rattle.std.specs.Prelude.{◌≡◌, List, ℕ, Bool};

/// Groups, as the rights ask for them.
pub trait Groups {
    /// Whether the group has the user, however it is kept.
    ghost is_in: { Self → List ℕ → List ℕ → Bool };

    /// Whether the group of this identifier has the user of this identifier. It takes no memory.
    fn has(&self, group: &str, user: &str) -> bool
        ensures { result ≡ is_in self.now group.now user.now };
}
