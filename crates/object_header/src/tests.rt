use crate::{Format, Head, HeadError, Header, free_header, overflow_word, read_head};

// The headers of the base image's array class and of its special objects array, which has ten
// slots.
const ARRAY_CLASS: u64 = 0x0300_0033_0100_0020;

const SPECIAL_ARRAY: u64 = 0x0a00_0000_0200_0033;

// A header of format 2 and class 51 that stands behind an overflow word.
const LONG_ARRAY: u64 = 0xff00_0000_0200_0033;

#[test]
fn the_bytes_of_a_file_give_the_fields(rt: HostRuntime) {
    assert_eq!(rt;
        u64::from_le_bytes([0x20, 0, 0, 1, 0x33, 0, 0, 3]),
        ARRAY_CLASS
    );
    let class = Header(ARRAY_CLASS);
    assert_eq!(rt;
        (class.count(), class.hash(), class.format(), class.class()),
        (3, 51, 1, 32)
    );
    assert_eq!(rt;
        u64::from_le_bytes([0x33, 0, 0, 2, 0, 0, 0, 0x0a]),
        SPECIAL_ARRAY
    );
    let array = Header(SPECIAL_ARRAY);
    assert_eq!(rt;
        (array.count(), array.hash(), array.format(), array.class()),
        (10, 0, 2, 51)
    );
}

#[test]
fn setters_make_the_header_and_each_flag_has_its_bit(rt: HostRuntime) {
    let made = Header(0)
        .set_count(3)
        .set_hash(51)
        .set_format(1)
        .set_class(32);
    assert_eq!(rt; made, Header(ARRAY_CLASS));
    let flags = [
        (Header(0).set_marked(1), 55),
        (Header(0).set_grey(1), 31),
        (Header(0).set_pinned(1), 30),
        (Header(0).set_remembered(1), 29),
        (Header(0).set_readonly(1), 23),
    ];
    for (header, bit) in flags {
        assert_eq!(rt; header, Header(1 << bit), "bit {bit}");
        let (marked, grey, pinned) = (header.marked(), header.grey(), header.pinned());
        let (remembered, readonly) = (header.remembered(), header.readonly());
        let set = marked + grey + pinned + remembered + readonly;
        assert_eq!(rt; set, 1, "bit {bit}");
    }
}

#[test]
fn formats_have_their_units_and_pointers(rt: HostRuntime) {
    // The bytes of a unit, the unused units, the slots needed, and how many of five slots are
    // pointers at two literals.
    let rows = [
        (Format::new(0), (0, 0, 0, 5)),
        (Format::new(5), (0, 0, 0, 5)),
        (Format::new(7), (0, 0, 0, 0)),
        (Format::new(9), (8, 0, 0, 0)),
        (Format::new(11), (4, 1, 1, 0)),
        (Format::new(15), (2, 3, 1, 0)),
        (Format::new(16), (1, 0, 0, 0)),
        (Format::new(23), (1, 7, 1, 0)),
        (Format::new(24), (1, 0, 1, 3)),
        (Format::new(31), (1, 7, 2, 3)),
    ];
    for (format, want) in rows {
        let row = (
            format.unit_bytes(),
            format.unused(),
            format.slot_need(),
            format.pointer_slots(5, 2),
        );
        assert_eq!(rt; row, want, "{format:?}");
    }
    assert!(rt; Format::new(24).is_method());
    assert!(rt; !Format::new(23).is_method());
}

#[test]
fn heads_of_accepted_chunks(rt: HostRuntime) {
    let mut longest = [0; 257];
    longest[0] = 0xff00_0000_0000_00ff;
    longest[1] = LONG_ARRAY;
    let mut free_lists = [0; 65];
    free_lists[0] = 0x4000_0000_0900_0013;
    // The words, and the head's lead, slots, words, pointers and units.
    let rows: [(&[u64], [usize; 5]); 9] = [
        (&[ARRAY_CLASS, 0, 0, 0], [0, 3, 4, 3, 0]),
        // an object without slots has a word for one, and what follows it plays no part
        (&[0x21, 0, ARRAY_CLASS], [0, 0, 2, 0, 0]),
        (&free_lists, [0, 64, 65, 0, 64]),
        (&longest, [1, 255, 257, 255, 0]),
        // an overflow word may have a count that the header could have had
        (
            &[0xff00_0000_0000_0003, LONG_ARRAY, 0, 0, 0],
            [1, 3, 5, 3, 0],
        ),
        (&[0xff00_0000_0000_0000, LONG_ARRAY, 0], [1, 0, 3, 0, 0]),
        // free chunks and a forwarder have no pointers and no units
        (&[0x0300_0000_0900_0000, 0, 0, 0], [0, 3, 4, 0, 0]),
        (
            &[0xff00_0000_0000_0002, 0xff00_0000_0900_0000, 0, 0],
            [1, 2, 4, 0, 0],
        ),
        (&[0x0100_0000_0700_0008, 0], [0, 1, 2, 0, 0]),
    ];
    for (words, [lead, slots, size, pointers, units]) in rows {
        let header = words[lead];
        let want = Head {
            header,
            lead,
            slots,
            words: size,
            pointers,
            units,
        };
        assert_eq!(rt; read_head(words), Ok(want), "header {header}");
    }
}

#[test]
fn each_refusal_in_its_order(rt: HostRuntime) {
    let rows: [(&[u64], HeadError); 9] = [
        (&[], HeadError::Overrun),
        (&[0xff00_0000_0000_0003], HeadError::Overrun),
        (
            &[0xff00_0000_0000_0003, ARRAY_CLASS, 0, 0, 0],
            HeadError::BadCount,
        ),
        // the count is looked at before the class, and both before the end of the body
        (
            &[0xff00_0000_0000_0003, 0x0300_0000_0000_0003],
            HeadError::BadCount,
        ),
        (&[0x0000_0000_0000_0003], HeadError::BadFormat(0)),
        (&[0x0100_0000_0600_0033, 0], HeadError::BadFormat(6)),
        (&[0x0100_0000_0800_0033], HeadError::BadFormat(8)),
        (&[ARRAY_CLASS, 0, 0], HeadError::Overrun),
        (&[0x21], HeadError::Overrun),
    ];
    for (words, want) in rows {
        assert_eq!(rt; read_head(words), Err(want), "{words:?}");
    }
}

// An object of five slots, the first of which counts two literals in a method: its pointer slots
// and units by its format, or none where no object has the format.
const FIVE_SLOTS: [Option<(usize, usize)>; 32] = [
    Some((5, 0)),
    Some((5, 0)),
    Some((5, 0)),
    Some((5, 0)),
    Some((5, 0)),
    Some((5, 0)),
    None,
    None,
    None,
    Some((0, 5)),
    Some((0, 10)),
    Some((0, 9)),
    Some((0, 20)),
    Some((0, 19)),
    Some((0, 18)),
    Some((0, 17)),
    Some((0, 40)),
    Some((0, 39)),
    Some((0, 38)),
    Some((0, 37)),
    Some((0, 36)),
    Some((0, 35)),
    Some((0, 34)),
    Some((0, 33)),
    Some((3, 16)),
    Some((3, 15)),
    Some((3, 14)),
    Some((3, 13)),
    Some((3, 12)),
    Some((3, 11)),
    Some((3, 10)),
    Some((3, 9)),
];

#[test]
fn each_format_has_its_slots_and_units(rt: HostRuntime) {
    for (format, want) in FIVE_SLOTS.iter().enumerate() {
        let header = Header(0x0500_0000_0000_0033).set_format(format as u64);
        let read = read_head(&[header.0, 0x11, 0, 0, 0, 0]);
        match want {
            Some((pointers, units)) => {
                let head = Head {
                    header: header.0,
                    lead: 0,
                    slots: 5,
                    words: 6,
                    pointers: *pointers,
                    units: *units,
                };
                assert_eq!(rt; read, Ok(head), "format {format}");
            }
            None => assert_eq!(rt; read, Err(HeadError::BadFormat(format as u8))),
        }
    }
}

#[test]
fn methods_hold_the_literals_that_they_count(rt: HostRuntime) {
    // The format, the slots, and what is read: pointer slots and units, or a refusal.
    let rows: [(u64, &[u64], Option<(usize, usize)>); 7] = [
        (24, &[0x1], Some((1, 0))),
        (24, &[0x11, 0, 0], Some((3, 0))),
        (31, &[0x11, 0, 0, 0], Some((3, 1))),
        // more unused units than units
        (25, &[0x11, 0, 0], None),
        // one literal more than the slots hold
        (24, &[0x19, 0, 0], None),
        // slot 0 is no SmallInteger
        (24, &[0x10, 0, 0], None),
        (24, &[], None),
    ];
    for (format, slots, want) in rows {
        let mut words = [0; 6];
        words[0] = Header(0x33)
            .set_count(slots.len() as u64)
            .set_format(format)
            .0;
        for (i, slot) in slots.iter().enumerate() {
            if let Some(word) = words.get_mut(i + 1) {
                *word = *slot;
            }
        }
        let read = read_head(&words);
        match want {
            Some(cut) => {
                assert_eq!(rt; read.map(|head| (head.pointers, head.units)), Ok(cut));
            }
            None => assert_eq!(rt; read, Err(HeadError::BadCount)),
        }
    }
}

#[test]
fn free_chunks_have_head_words(rt: HostRuntime) {
    assert_eq!(rt; free_header(3).0, 0x0300_0000_0900_0000);
    assert_eq!(rt; overflow_word(300), 0xff00_0000_0000_012c);
}
