//! Truth values as words.

ghost use Rattle.std.specs.Prelude.{◌≡◌};
ghost use Rattle.pb_data.specs.Truth.{truth_text};

/// Returns the word `true` or `false`.
pub fn truth_text(truth: bool) -> &'static str
    ensures { result.now ≡ truth_text truth }
{
    if truth { "true" } else { "false" }
}
