ghost use Rattle.std.specs.Prelude.{◌≡◌, Bool, true, false, None, Some, refl, is_none};

/// What stands for a number in a dense window. One value says that nothing stands there any more.
pub trait Place {
    /// What stands for a number that is gone.
    ghost gone: { Self };

    /// Whether this is that value.
    ghost is_gone: { Self → Bool };

    fn is_gone(&self) -> bool
        ensures { result ≡ is_gone self.now };

    ghost gone_is_gone: { is_gone gone ≡ true };

    ghost gone_alone: { (x : Self) → is_gone x ≡ true → x ≡ gone };
}

impl<T> Place for Option<T> {
    ghost gone = { None };

    ghost is_gone = { is_none };

    ghost gone_is_gone = { refl };

    ghost gone_alone = { elim [ None ↦ λ is. refl | Some x ↦ λ is. cc ] };

    fn is_gone(&self) -> bool {
        self.is_none()
    }
}
