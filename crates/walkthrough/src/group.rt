// Four words as a block and back, and a block that has no words.
use blocks::block::Block;
use numbered_refusal::Refusal;
use words::word::Word;

fn print_words(rt: &HostRuntime, words: &[Word; 4]) -> anyhow::Result<()> {
    for (j, word) in words.iter().enumerate() {
        println!(rt; "  word {j}: {word}")?;
    }
    Ok(())
}

fn print_refusal(rt: &HostRuntime, block: &Block) -> anyhow::Result<()> {
    println!(rt; "Block {block}")?;
    match block.words() {
        Ok(_) => println!(rt; "  has words")?,
        Err(refusal) => {
            let (number, layer, place) = (refusal.number(), refusal.layer(), refusal.place());
            println!(rt; "  is refused: {refusal}")?;
            println!(rt; "  number {number}, layer {layer}, place {place}")?;
        }
    }
    Ok(())
}

pub fn show(rt: &HostRuntime) -> anyhow::Result<()> {
    println!(rt; "A group of four words, the second and the fourth control words:")?;
    let words = [
        Word::Data(0x0123_4567_89ab_cdef),
        Word::new(1, 0x0011_2233_4455_6678)?,
        Word::Data(0xfedc_ba98_7654_3210),
        Word::new(1, 0x8899_aabb_ccdd_ee1e)?,
    ];
    print_words(rt, &words)?;
    let block = Block::of(&words);
    println!(rt; "Its block, bit 256 first:")?;
    println!(rt; "  {block}")?;
    let back = block.words()?;
    let same = back == words;
    println!(rt; "Read back, the words are the same: {same}")?;
    if let Some(unlisted) = Block::new([0x1d8, 0, 0, 0, 0]) {
        print_refusal(rt, &unlisted)?;
    }
    println!(rt)?;
    Ok(())
}
