//! The table of the Gaussian kernel.

ghost use Rattle.std.specs.Prelude.{◌≡◌, ◌≤◌};
ghost use Rattle.kernel_table.specs.Kernel.{gauss_entry};

/// The entries of the Gaussian kernel, in parts of 2^20.
///
/// The entry at `i` is after `2^20 * exp(-(i/64)^2)`. The first is 1048576, with the factor
/// 4293918847. Each next entry is the one before times its factor, and the factor beside it the
/// factor before times 4292870655, both by 2^32 and rounded down. So the table is whole numbers on
/// every machine, and never rises. A last 0 stands for each place past them.
static GAUSS_TABLE: [u32; 257] = [
    1048576, 1048320, 1047552, 1046274, 1044487, 1042194, 1039398, 1036104, 1032316, 1028040,
    1023282, 1018049, 1012348, 1006187, 999576, 992523, 985039, 977134, 968820, 960107, 951008,
    941536, 931703, 921523, 911009, 900175, 889036, 877606, 865900, 853933, 841720, 829277, 816619,
    803762, 790721, 777512, 764150, 750651, 737031, 723305, 709488, 695595, 681641, 667641, 653609,
    639560, 625507, 611464, 597445, 583462, 569528, 555656, 541857, 528143, 514524, 501012, 487617,
    474348, 461215, 448227, 435392, 422718, 410212, 397882, 385734, 373774, 362008, 350442, 339080,
    327926, 316984, 306257, 295749, 285462, 275398, 265559, 255947, 246562, 237405, 228477, 219777,
    211305, 203061, 195043, 187250, 179681, 172334, 165206, 158296, 151601, 145118, 138844, 132777,
    126913, 121249, 115781, 110505, 105418, 100516, 95796, 91253, 86883, 82681, 78644, 74768,
    71048, 67480, 64060, 60784, 57647, 54645, 51774, 49030, 46409, 43906, 41518, 39241, 37071,
    35003, 33035, 31162, 29381, 27688, 26080, 24553, 23104, 21730, 20428, 19195, 18027, 16922,
    15877, 14889, 13956, 13075, 12243, 11459, 10720, 10023, 9367, 8750, 8169, 7623, 7110, 6628,
    6176, 5752, 5354, 4981, 4632, 4305, 3999, 3713, 3446, 3197, 2964, 2747, 2544, 2355, 2179, 2015,
    1863, 1721, 1589, 1467, 1353, 1247, 1149, 1058, 974, 896, 824, 757, 695, 638, 585, 536, 491,
    450, 412, 377, 345, 315, 288, 263, 240, 219, 199, 181, 165, 150, 136, 123, 111, 100, 90, 81,
    73, 66, 59, 53, 48, 43, 38, 34, 30, 27, 24, 21, 18, 16, 14, 12, 10, 9, 8, 7, 6, 5, 4, 3, 2, 1,
    0, 0, 0, 0, 0, 0, 0, 0, 0, 0, 0, 0, 0, 0, 0, 0, 0, 0, 0, 0, 0, 0, 0, 0, 0, 0, 0, 0, 0, 0, 0, 0,
    0, 0,
];

/// An entry of the Gaussian table, or the 0 that follows the last one.
pub(crate) fn entry(place: usize) -> u64
    requires { place ≤ 256 }
    ensures { result ≡ gauss_entry place }
{
    read(&GAUSS_TABLE, place)
}

/// The number at a place of the table.
fn read(table: &[u32], place: usize) -> u64
    requires gauss { table.now ≡ GAUSS_TABLE }
    requires within { place ≤ 256 }
    ensures { result ≡ gauss_entry place }
{
    table[place] as u64
}
