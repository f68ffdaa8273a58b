// The families, as C has them: 0 for the first case, any other number for the second.
ghost use Rattle.std.specs.Prelude.{◌≡◌};
ghost use Rattle.models.specs.Families.{parameter_count_of, extra_parameters_of, list_length_of};
ghost use Rattle.models.specs.Parts.{error_of, genome_of};

use models::families::{ErrorModel, GenomeModel, list_length};

pub fn fog_parameter_count(error: u8) -> usize
    ensures { result ≡ parameter_count_of (error_of error) }
{
    ErrorModel::from(error).parameter_count()
}

pub fn fog_extra_parameters(genome: u8) -> usize
    ensures { result ≡ extra_parameters_of (genome_of genome) }
{
    GenomeModel::from(genome).extra_parameters()
}

pub fn fog_list_length(error: u8, genome: u8) -> usize
    ensures { result ≡ list_length_of (error_of error) (genome_of genome) }
{
    list_length(ErrorModel::from(error), GenomeModel::from(genome))
}
