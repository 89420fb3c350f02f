// Ports: the totals at the edges of their limit, and every way in which a reading ends.
use blocks::refusal::BlockRefusal;
use code::bare::Bare;
use code::correction_off::CorrectionOff;
use code::interface::Code;
use code::refusal::CodeRefusal;
use code::scrambled::Scrambled;
use messages::refusal::MessageRefusal;
use port::refusal::PortRefusal;
use port::state::Port;
use port::totals::Totals;
use reed_solomon::codec::ReedSolomon;
use std::test::Fail;
use words::word::Word;

// The largest total: written out here, since a limit taken from port would try port on itself.
const LIMIT: u64 = 1 << 40;

fn totals(accepted: u64, dropped: u64, mended: u64) -> Totals {
    Totals {
        accepted,
        dropped,
        mended,
    }
}

// What opening a port with these totals answers, and what one reading of a written line answers then.
fn opened<C: Code + Drop>(
    code: C,
    line: &mut [u16],
    opening: Totals,
) -> Result<Totals, PortRefusal> {
    let mut port = Port::open(code, opening)?;
    let mut words = [Word::Data(5); 80];
    port.write(&words, line)?;
    port.read(line, &mut words)?;
    Ok(port.totals())
}

#[test]
fn opens_up_to_the_limit(rt: HostRuntime) {
    let table = [
        (totals(0, 0, 0), Ok(totals(1, 0, 0))),
        (totals(3, LIMIT - 4, LIMIT), Ok(totals(4, LIMIT - 4, LIMIT))),
        (totals(3, LIMIT - 3, 0), Err(PortRefusal::Full)),
        (totals(3, LIMIT - 2, 0), Err(PortRefusal::Opening)),
        (totals(0, 0, LIMIT + 1), Err(PortRefusal::Opening)),
        (totals(u64::MAX, u64::MAX, 0), Err(PortRefusal::Opening)),
        (totals(u64::MAX, 2, u64::MAX), Err(PortRefusal::Opening)),
    ];
    for (opening, answer) in table {
        assert_eq!(rt; opened(Bare, &mut [0u16; 514], opening), answer);
    }
}

// A code that mends up to 7 symbols leaves that much room below the limit.
#[test]
fn leaves_room_for_seven(rt: HostRuntime) {
    let table = [
        (totals(0, 0, LIMIT - 7), Ok(totals(1, 0, LIMIT - 7))),
        (totals(0, 0, LIMIT - 6), Err(PortRefusal::Full)),
        (totals(LIMIT - 1, 0, 0), Ok(totals(LIMIT, 0, 0))),
    ];
    for (opening, answer) in table {
        assert_eq!(rt; opened(ReedSolomon, &mut [0u16; 528], opening), answer);
    }
}

// How one reading ended: its answer, and the totals then.
#[derive(Clone, Copy, PartialEq, Debug)]
struct Ending {
    answer: Result<(), PortRefusal>,
    totals: Totals,
}

// How the reading of a written line ends once `flip` was added to the symbol at `place`.
fn spoilt(place: usize, flip: u16) -> Result<Ending, PortRefusal> {
    let mut port = Port::open(
        CorrectionOff {
            inner: Scrambled { inner: Bare },
        },
        totals(10, 20, 30),
    )?;
    let mut words = [Word::Data(0); 80];
    let mut line = [0u16; 514];
    port.write(&words, &mut line)?;
    if let Some(symbol) = line.get_mut(place) {
        *symbol ^= flip;
    }
    let answer = port.read(&mut line, &mut words);
    Ok(Ending {
        answer,
        totals: port.totals(),
    })
}

#[test]
fn counts_each_end_of_a_reading(rt: HostRuntime) -> Result<(), Fail> {
    let no_control = MessageRefusal::Block {
        block: 0,
        refusal: BlockRefusal::NoControl,
    };
    let table = [
        (0, 0, Ok(()), totals(11, 20, 30)),
        // any body of data words is valid
        (1, 7, Ok(()), totals(11, 20, 30)),
        // bits 0 to 4 of block 0 become 0, 1, 1, 1, 1
        (
            0,
            0x1f,
            Err(PortRefusal::Message(no_control)),
            totals(10, 21, 30),
        ),
        (
            513,
            0x400,
            Err(PortRefusal::Code(CodeRefusal::Symbol { place: 513 })),
            totals(10, 20, 30),
        ),
    ];
    for (place, flip, answer, totals) in table {
        assert_eq!(rt; spoilt(place, flip)?, Ending { answer, totals });
    }
    Ok(())
}

#[test]
fn refuses_wrong_lengths(rt: HostRuntime) -> Result<(), Fail> {
    let mut port = Port::open(Bare, totals(0, 0, 0))?;
    let mut words = [Word::Data(0); 80];
    let mut short = [0u16; 513];
    assert_eq!(rt; port.read(&mut short, &mut words), Err(PortRefusal::Length));
    assert_eq!(rt; port.write(&words, &mut short), Err(PortRefusal::Length));
    let mut line = [0u16; 514];
    assert_eq!(rt;
        port.write(&words[0..79], &mut line),
        Err(PortRefusal::Length)
    );
    assert_eq!(rt; port.totals(), totals(0, 0, 0));
    Ok(())
}

// Writes, spoils so many symbols and reads: whether the words came back, and the totals. Both are always there, so a pair holds them.
fn carried<C: Code + Drop>(
    code: C,
    line: &mut [u16],
    wrong: usize,
) -> Result<(bool, Totals), PortRefusal> {
    let mut port = Port::open(code, totals(0, 0, 0))?;
    let sent = [Word::Data(0x0123_4567_89ab_cdef); 80];
    port.write(&sent, line)?;
    for symbol in line.iter_mut().skip(3).step_by(70).take(wrong) {
        *symbol ^= 0x3ff;
    }
    let mut words = [Word::Data(0); 80];
    let _ = port.read(line, &mut words);
    Ok((words == sent, port.totals()))
}

#[test]
fn goes_over_every_pile(rt: HostRuntime) -> Result<(), Fail> {
    for wrong in 0..8 {
        let mended = totals(1, 0, wrong as u64);
        assert_eq!(rt;
            carried(ReedSolomon, &mut [0u16; 528], wrong)?,
            (true, mended)
        );
        assert_eq!(rt;
            carried(Scrambled { inner: ReedSolomon }, &mut [0u16; 528], wrong)?,
            (true, mended)
        );
    }
    assert_eq!(rt;
        carried(Scrambled { inner: ReedSolomon }, &mut [0u16; 528], 8)?,
        (false, totals(0, 1, 0))
    );
    assert_eq!(rt;
        carried(Bare, &mut [0u16; 514], 0)?,
        (true, totals(1, 0, 0))
    );
    Ok(())
}

#[test]
fn accepts_code_words_only_with_correction_off(rt: HostRuntime) -> Result<(), Fail> {
    for (wrong, answer) in [
        (0, (true, totals(1, 0, 0))),
        (1, (false, totals(0, 1, 0))),
        (7, (false, totals(0, 1, 0))),
    ] {
        assert_eq!(rt;
            carried(
                CorrectionOff { inner: ReedSolomon },
                &mut [0u16; 528],
                wrong,
            )?,
            answer
        );
        assert_eq!(rt;
            carried(
                CorrectionOff {
                    inner: Scrambled { inner: ReedSolomon },
                },
                &mut [0u16; 528],
                wrong,
            )?,
            answer
        );
        assert_eq!(rt;
            carried(
                Scrambled {
                    inner: CorrectionOff { inner: ReedSolomon },
                },
                &mut [0u16; 528],
                wrong,
            )?,
            answer
        );
    }
    Ok(())
}
