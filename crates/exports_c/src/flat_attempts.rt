// An attempt, as C has it, and the fit that is used out of four. C makes an attempt by filling the struct in.
ghost use Rattle.std.specs.Prelude.{◌≡◌, [], ◌∷◌};
ghost use Rattle.meaning.specs.Flags.{byte_of};
ghost use Rattle.fitter.specs.Attempts.{valid_of};
ghost use Rattle.fitter.specs.Selection.{select_of};
ghost use Rattle.exports.specs.FlatAttempts.{attempt_of_flat, of_selected};

use exports::flat_attempts::{FlatAttempt, FlatSelected};

#[unsafe(no_mangle)]
pub extern "C" fn fog_is_valid(attempt: FlatAttempt) -> u8
    ensures { result ≡ byte_of (valid_of (attempt_of_flat attempt)) }
{
    exports::flat_attempts::fog_is_valid(attempt)
}

#[unsafe(no_mangle)]
pub extern "C" fn fog_select_fit(
    first: FlatAttempt,
    second: FlatAttempt,
    third: FlatAttempt,
    fourth: FlatAttempt,
) -> FlatSelected
    ensures { result
        ≡ of_selected
        (select_of (attempt_of_flat first ∷ attempt_of_flat second ∷ attempt_of_flat third ∷ attempt_of_flat fourth ∷
        [])) }
{
    exports::flat_attempts::fog_select_fit(first, second, third, fourth)
}
