// The two families of each component.
// Ported from src/preprocessing/models.rs of bacpop/sparrowhawk-asm, f1f8af1232, Apache-2.0; ported and changed.
ghost use Rattle.std.specs.Prelude.{◌≡◌};
ghost use Rattle.models.specs.Families.{parameter_count_of, extra_parameters_of, list_length_of};

// Both give count 1 a free probability, and differ in the tail.
#[derive(Clone, Copy)]
pub enum ErrorModel {
    FreeSingletonWeibull,
    SingletonPareto,
}

#[derive(Clone, Copy)]
pub enum GenomeModel {
    NegativeBinomial,
    ShelfNegativeBinomial,
}

impl ErrorModel {
    // The coordinates before the genome model's own: two weights, the mode, the dispersion and the error's.
    pub fn parameter_count(self) -> usize
        ensures { result ≡ parameter_count_of self }
    {
        match self {
            ErrorModel::FreeSingletonWeibull => 7,
            ErrorModel::SingletonPareto => 6,
        }
    }
}

impl GenomeModel {
    // The repeat's ratio, and a shelf's share, a and b.
    pub fn extra_parameters(self) -> usize
        ensures { result ≡ extra_parameters_of self }
    {
        match self {
            GenomeModel::NegativeBinomial => 1,
            GenomeModel::ShelfNegativeBinomial => 4,
        }
    }
}

// The length of a parameter list: 8, 11, 7 or 10.
pub fn list_length(error: ErrorModel, genome: GenomeModel) -> usize
    ensures { result ≡ list_length_of error genome }
{
    error.parameter_count() + genome.extra_parameters()
}
