//! Roots modulo the three primes.

/// Modulo the first prime, roots of the orders 4, 8, up to 1,024. The square of the first one is -1, that of each other the one
/// before it.
pub(crate) const STEPS_OF_FIRST: [u32; 9] = [
    63_054_213,
    108_838_861,
    111_577_782,
    103_301_485,
    7_203_577,
    8_225_640,
    2_858_608,
    1_735_425,
    20_252_657,
];

/// The inverses of these.
pub(crate) const BACK_OF_FIRST: [u32; 9] = [
    71_294_588,
    33_316_585,
    42_131_173,
    120_897_030,
    85_419_597,
    59_517_180,
    55_321_463,
    59_336_971,
    104_969_087,
];

/// As `STEPS_OF_FIRST`, modulo the second prime.
pub(crate) const STEPS_OF_SECOND: [u32; 9] = [
    122_103_448,
    17_268_306,
    27_445_029,
    10_720_105,
    125_294_662,
    83_335_470,
    7_820_304,
    74_335_651,
    28_377_546,
];

/// The inverses of these.
pub(crate) const BACK_OF_SECOND: [u32; 9] = [
    13_031_785,
    66_513_067,
    109_080_257,
    15_677_084,
    4_899_700,
    128_276_452,
    124_192_936,
    115_432_894,
    22_271_417,
];

/// As `STEPS_OF_FIRST`, modulo the third prime.
pub(crate) const STEPS_OF_THIRD: [u32; 9] = [
    2_113_537,
    40_972_877,
    95_274_502,
    32_817_385,
    103_270_887,
    51_313_586,
    83_024_235,
    23_124_954,
    64_054_466,
];

/// The inverses of these.
pub(crate) const BACK_OF_THIRD: [u32; 9] = [
    134_201_344,
    17_121_088,
    106_193_822,
    58_134_597,
    56_152_909,
    73_588_918,
    120_474_386,
    82_606_210,
    102_223_540,
];
