// The constant tables: the powers of two that exp and expm1 start from, and the error starts.
ghost use Rattle.std.specs.Prelude.{◌≡◌, ◌%◌};
ghost use Rattle.routines.specs.Starts.{pareto_starts, weibull_starts};
ghost use Rattle.routines.specs.Tables.{power_of};

// 2^(i/32) in two parts: the nearest `f64`, and what is left of it over that, again the nearest `f64`.
#[derive(Clone, Copy)]
pub struct Power {
    pub value: f64,
    pub rest: f64,
}

// Row i of the table, counted modulo 32. It is a `match` and no array: an array in a `const` is copied to the stack at
// each call.
#[tactic(auto, using(crate::proofs::Rows::negative), unfolding(entries::specs::ExpTable::rows))]
pub fn power_at(i: u64) -> Power
    ensures { result ≡ power_of (i % 32) }
{
    let row = i % 32;
    match row {
        0 => Power {
            value: 1.0,
            rest: 0.0,
        },
        1 => Power {
            value: 1.0218971486541166,
            rest: 4.9997448722726326e-17,
        },
        2 => Power {
            value: 1.0442737824274138,
            rest: 8.189317638195515e-17,
        },
        3 => Power {
            value: 1.0671404006768237,
            rest: -7.402825309426177e-17,
        },
        4 => Power {
            value: 1.0905077326652577,
            rest: -2.7939114859515733e-17,
        },
        5 => Power {
            value: 1.1143867425958924,
            rest: 9.341710609905046e-17,
        },
        6 => Power {
            value: 1.1387886347566916,
            rest: 7.826573258636076e-17,
        },
        7 => Power {
            value: 1.1637248587775775,
            rest: 3.2904726646008416e-17,
        },
        8 => Power {
            value: 1.189207115002721,
            rest: 3.3484623336251524e-17,
        },
        9 => Power {
            value: 1.215247359980469,
            rest: -6.346552106729483e-17,
        },
        10 => Power {
            value: 1.241857812073484,
            rest: 3.750854201303127e-17,
        },
        11 => Power {
            value: 1.2690509571917332,
            rest: 2.1023049675215714e-18,
        },
        12 => Power {
            value: 1.2968395546510096,
            rest: 1.9572585293112036e-17,
        },
        13 => Power {
            value: 1.3252366431597413,
            rest: -2.1571477251208752e-17,
        },
        14 => Power {
            value: 1.3542555469368927,
            rest: 5.68648095791174e-17,
        },
        15 => Power {
            value: 1.383909881963832,
            rest: -4.8923067513522756e-17,
        },
        16 => Power {
            value: 1.4142135623730951,
            rest: -6.835808657661922e-17,
        },
        17 => Power {
            value: 1.4451808069770467,
            rest: -2.092304381843353e-17,
        },
        18 => Power {
            value: 1.4768261459394993,
            rest: -2.3591094770850053e-17,
        },
        19 => Power {
            value: 1.5091644275934228,
            rest: -6.735219232374683e-17,
        },
        20 => Power {
            value: 1.5422108254079407,
            rest: 5.1548301170786783e-17,
        },
        21 => Power {
            value: 1.5759808451078865,
            rest: -6.432131775424189e-18,
        },
        22 => Power {
            value: 1.6104903319492543,
            rest: 1.5341410053603723e-17,
        },
        23 => Power {
            value: 1.645755478153965,
            rest: -6.152602891550265e-17,
        },
        24 => Power {
            value: 1.681792830507429,
            rest: 4.875160526227062e-17,
        },
        25 => Power {
            value: 1.718619298122478,
            rest: -1.0772487078934056e-17,
        },
        26 => Power {
            value: 1.7562521603732995,
            rest: 1.685487290628973e-17,
        },
        27 => Power {
            value: 1.7947090750031072,
            rest: 1.01562190116415e-17,
        },
        28 => Power {
            value: 1.8340080864093424,
            rest: 1.790126907604513e-17,
        },
        29 => Power {
            value: 1.8741676341103,
            rest: -3.266924100901318e-17,
        },
        30 => Power {
            value: 1.9152065613971474,
            rest: -5.545065618639427e-17,
        },
        _ => Power {
            value: 1.9571441241754002,
            rest: 4.5784915277060095e-17,
        },
    }
}

// An error start. Pareto has no shape: its 0 is not read.
#[derive(Clone, Copy)]
pub struct Start {
    pub tail_exponent: f64,
    pub singleton_probability: f64,
    pub shape: f64,
}

const PARETO: [Start; 2] = [
    Start {
        tail_exponent: 1.5,
        singleton_probability: 0.8,
        shape: 0.0,
    },
    Start {
        tail_exponent: 2.5,
        singleton_probability: 0.95,
        shape: 0.0,
    },
];

const WEIBULL: [Start; 3] = [
    Start {
        tail_exponent: 1.5,
        singleton_probability: 0.8,
        shape: 0.05,
    },
    Start {
        tail_exponent: 2.5,
        singleton_probability: 0.9,
        shape: 0.5,
    },
    Start {
        tail_exponent: 2.0,
        singleton_probability: 0.95,
        shape: 1.0,
    },
];

// Row behind row, as a lent table has them. Two functions: no const parameter says an array of 3 n numbers.
pub fn pareto_starts() -> [f64; 6]
    ensures { result ≡ pareto_starts }
{
    let rows = PARETO;
    let a = rows[0];
    let b = rows[1];
    [
        a.tail_exponent,
        a.singleton_probability,
        a.shape,
        b.tail_exponent,
        b.singleton_probability,
        b.shape,
    ]
}

pub fn weibull_starts() -> [f64; 9]
    ensures { result ≡ weibull_starts }
{
    let rows = WEIBULL;
    let a = rows[0];
    let b = rows[1];
    let c = rows[2];
    [
        a.tail_exponent,
        a.singleton_probability,
        a.shape,
        b.tail_exponent,
        b.singleton_probability,
        b.shape,
        c.tail_exponent,
        c.singleton_probability,
        c.shape,
    ]
}
