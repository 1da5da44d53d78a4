// Values that have a name.

/// A value with a name, of which contracts alone speak: the trait has no call.
pub trait Named {
    type Label;

    /// The value's name.
    ghost name: { Self → Self.Label };
}
