use crate::{
    Kind, Range, char_of, character, float_bits, int_of, is_immediate_word, kind, small_int,
};

#[test]
fn words_have_kinds(rt: HostRuntime) {
    let words = [
        (0x20, Kind::Reference),
        (0x21, Kind::Int),
        (0xffff_ffff_ffff_fff9, Kind::Int),
        (0x20a, Kind::Char),
        (0x1_ffff_fffa, Kind::Char),
        (0x2_0000_0002, Kind::Bad),
        (0x24, Kind::Float),
        (0x23, Kind::Bad),
        (0x25, Kind::Bad),
        (0x26, Kind::Bad),
        (0x27, Kind::Bad),
    ];
    for (word, expected) in words {
        assert_eq!(rt; kind(word), expected, "word {word}");
        assert_eq!(rt;
            is_immediate_word(word),
            matches!(expected, Kind::Int | Kind::Char | Kind::Float),
            "word {word}"
        );
    }
}

#[test]
fn values_have_words_up_to_both_ends(rt: HostRuntime) {
    let numbers = [
        (0, Ok(1)),
        (-1, Ok(0xffff_ffff_ffff_fff9)),
        ((1 << 60) - 1, Ok(0x7fff_ffff_ffff_fff9)),
        (1 << 60, Err(Range)),
        (-(1 << 60), Ok(0x8000_0000_0000_0001)),
        (-(1 << 60) - 1, Err(Range)),
    ];
    for (number, word) in numbers {
        assert_eq!(rt; small_int(number), word, "number {number}");
    }
    assert_eq!(rt; int_of(0x7fff_ffff_ffff_fff9), (1 << 60) - 1);
    assert_eq!(rt; int_of(0xffff_ffff_ffff_fff9), -1);
    assert_eq!(rt; int_of(0x8000_0000_0000_0001), -(1 << 60));
    assert_eq!(rt; character((1 << 30) - 1), Ok(0x1_ffff_fffa));
    assert_eq!(rt; character(1 << 30), Err(Range));
    assert_eq!(rt; char_of(0x1_ffff_fffa), (1 << 30) - 1);
    assert_eq!(rt; float_bits(0x24), Ok(0x24));
    assert_eq!(rt; float_bits(0x23), Err(Range));
    assert_eq!(rt; float_bits(0x20), Err(Range));
}
