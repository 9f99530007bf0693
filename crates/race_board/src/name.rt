//! Which ticket or which ban a load is for.
ghost use Rattle.std.specs.Prelude.{ℕ};

// Each call picks it.
pub(crate) trait About {
    ghost slot: { ℕ };

    ghost place: { ℕ };
}

impl About for std::marker::Brand {
    ghost slot = { 0 };

    ghost place = { 0 };
}
