// Parities of random messages and verdicts on spoiled lines, as tools/reed_solomon.py prints them.

// The parity of the message of each seed, from 1 on.
pub const PARITIES: [[u16; 14]; 12] = [
    [
        4, 455, 879, 494, 517, 423, 215, 473, 835, 765, 667, 475, 142, 1019,
    ],
    [
        922, 141, 563, 437, 134, 50, 410, 616, 1003, 787, 128, 907, 753, 604,
    ],
    [
        650, 98, 482, 767, 151, 678, 643, 876, 1002, 626, 117, 509, 883, 609,
    ],
    [
        715, 474, 253, 273, 37, 152, 804, 247, 144, 689, 44, 798, 465, 657,
    ],
    [
        314, 537, 706, 86, 308, 369, 644, 397, 277, 954, 734, 337, 135, 409,
    ],
    [
        759, 618, 5, 210, 892, 344, 1017, 483, 830, 241, 620, 455, 551, 330,
    ],
    [
        141, 400, 67, 824, 44, 790, 914, 237, 166, 281, 228, 386, 227, 321,
    ],
    [
        800, 71, 881, 957, 894, 87, 177, 185, 307, 818, 494, 17, 887, 507,
    ],
    [
        20, 744, 212, 374, 592, 187, 714, 804, 598, 898, 396, 1000, 878, 843,
    ],
    [
        1012, 745, 348, 974, 268, 785, 741, 837, 646, 303, 977, 102, 283, 446,
    ],
    [
        160, 387, 701, 576, 896, 626, 829, 488, 179, 455, 604, 145, 68, 825,
    ],
    [
        441, 191, 293, 536, 803, 381, 928, 78, 390, 792, 540, 794, 69, 84,
    ],
];

// Of each seed's line with 1, 4, 7, 8, 9 and 12 errors: how many symbols are wrong, or that no code word is near enough.
pub const VERDICTS: [[Option<usize>; 6]; 12] = [
    [Some(1), Some(4), Some(7), None, None, None],
    [Some(1), Some(4), Some(7), None, None, None],
    [Some(1), Some(4), Some(7), None, None, None],
    [Some(1), Some(4), Some(7), None, None, None],
    [Some(1), Some(4), Some(7), None, None, None],
    [Some(1), Some(4), Some(7), None, None, None],
    [Some(1), Some(4), Some(7), None, None, None],
    [Some(1), Some(4), Some(7), None, None, None],
    [Some(1), Some(4), Some(7), None, None, None],
    [Some(1), Some(4), Some(7), None, None, None],
    [Some(1), Some(4), Some(6), Some(7), None, None],
    [Some(1), Some(4), Some(7), None, None, None],
];
