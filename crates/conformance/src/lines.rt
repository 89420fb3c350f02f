// Messages: eighty words there and back, and every refusal of a message.
use blocks::refusal::BlockRefusal;
use messages::reading::from_message;
use messages::refusal::MessageRefusal;
use messages::writing::to_message;
use numbered_refusal::Refusal;
use std::array;
use std::test::Fail;
use words::refusal::WordRefusal;
use words::word::Word;

// Eighty words of many kinds: word i is a control word where bit i % 7 of `pattern` is 1.
fn mixed(pattern: u8) -> Result<[Word; 80], WordRefusal> {
    array::try_from_fn(|i| {
        let body = (i as u64).wrapping_mul(0x9e37_79b9_7f4a_7c15);
        if pattern >> (i % 7) & 1 == 1 {
            Word::new(1, body & 0xffff_ffff_ffff_ff00 | 0xd2)
        } else {
            Ok(Word::Data(body))
        }
    })
}

#[test]
fn carries_messages(rt: HostRuntime) -> Result<(), Fail> {
    let mut message = [7u16; 514];
    for pattern in 0..128u8 {
        let words = mixed(pattern)?;
        to_message(&words, &mut message);
        assert_eq!(rt; from_message(&message)?, words);
    }
    Ok(())
}

#[test]
fn places_bits(rt: HostRuntime) {
    let mut words = [Word::Data(0); 80];
    let mut message = [7u16; 514];
    to_message(&words, &mut message);
    // bit 0 of each block, message bits 0, 257 and 514
    assert_eq!(rt; (message[0], message[25], message[51]), (1, 128, 16));
    words[4] = Word::Data(1);
    to_message(&words, &mut message);
    // bit 1 of block 1 is message bit 258
    assert_eq!(rt; (message[0], message[25], message[51]), (1, 384, 16));
}

#[test]
fn refuses_messages(rt: HostRuntime) {
    let mut message = [0u16; 514];
    assert_eq!(rt;
        from_message(&message),
        Err(MessageRefusal::Block {
            block: 0,
            refusal: BlockRefusal::NoType { word: 0 },
        })
    );
    to_message(&[Word::Data(0); 80], &mut message);
    // block 1 begins at message bit 257, bit 7 of symbol 25: its bits 0 to 4 become 0, 1, 1, 1, 1
    message[25] = 0x300;
    message[26] = 0x3;
    let refused = MessageRefusal::Block {
        block: 1,
        refusal: BlockRefusal::NoControl,
    };
    assert_eq!(rt; from_message(&message), Err(refused));
    assert_eq!(rt;
        (refused.number(), refused.place(), refused.block()),
        (21, 0, Some(1))
    );
    message[513] = 1024;
    assert_eq!(rt;
        from_message(&message),
        Err(MessageRefusal::Symbol { place: 513 })
    );
}
