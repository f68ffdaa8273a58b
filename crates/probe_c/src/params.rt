// The parameters of a list, as C has them.
ghost use Rattle.std.specs.Prelude.{◌≡◌};
ghost use Rattle.models.specs.Params.{params_answer_of};
ghost use Rattle.models.specs.Parts.{error_of, genome_of};
ghost use Rattle.probe.specs.FlatModels.{say_params};

use probe::params::FlatParamsAnswer;

#[unsafe(no_mangle)]
pub extern "C" fn fog_params_from(
    error: u8,
    genome: u8,
    peak: usize,
    theta: &[f64],
) -> FlatParamsAnswer
    ensures { result ≡ say_params (params_answer_of (error_of error) (genome_of genome) peak theta.now) }
{
    probe::params::fog_params_from(error, genome, peak, theta)
}
