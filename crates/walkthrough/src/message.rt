// Eighty words as a message and back.
use messages::reading::from_message;
use messages::writing::to_message;
use numbered_refusal::Refusal;
use words::word::Word;

// Eighty words: every fifth one a control word.
pub(crate) fn eighty() -> anyhow::Result<[Word; 80]> {
    let mut words = [Word::Data(0x5555_aaaa_5555_aaaa); 80];
    for (i, word) in words.iter_mut().enumerate().skip(3).step_by(5) {
        *word = Word::new(1, (i as u64) * 0x100 + 0x4b)?;
    }
    Ok(words)
}

pub fn show(rt: &HostRuntime) -> anyhow::Result<()> {
    let words = eighty()?;
    let mut message = [0u16; 514];
    to_message(&words, &mut message);
    let (first, second, last) = (message[0], message[1], message[513]);
    println!(rt; "Eighty words are a message of 514 symbols: {first} {second} .. {last}")?;
    let back = from_message(&message)?;
    let same = back == words;
    println!(rt; "Read back, the words are the same: {same}")?;
    message[42] = 1024;
    match from_message(&message) {
        Ok(_) => println!(rt; "With symbol 42 set to 1024 it is read")?,
        Err(refusal) => {
            let (number, place) = (refusal.number(), refusal.place());
            println!(rt;
                "With symbol 42 set to 1024 it is refused: {refusal} (number {number}, place {place})"
            )?;
        }
    }
    println!(rt)?;
    Ok(())
}
