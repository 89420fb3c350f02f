// The calls of `exports` under the names that C links: each answers what the call below it answers.
// They stand in a crate of their own, since C links a static library and no crate can use one.
#![tactic(auto)]

ghost use Rattle.exports.specs.Answers.{FormAnswer, MendAnswer, WriteAnswer, ReadAnswer};

// RS(528,514): leaves the code word of the message in the line; answers 0.
#[unsafe(no_mangle)]
pub extern "C" fn l32_form(message: &[u16], line: &mut [u16]) -> u32
    ensures { FormAnswer message.now line.old line.new result }
{
    exports::l32_form(message, line)
}

// RS(528,514): mends the line and gives its message; answers the distance.
#[unsafe(no_mangle)]
pub extern "C" fn l32_mend(line: &mut [u16], message: &mut [u16]) -> u32
    ensures { MendAnswer line.old message.old line.new message.new result }
{
    exports::l32_mend(line, message)
}

// Eighty data words of these bodies, through a port over scrambling over RS(528,514), to the line; answers 0.
#[unsafe(no_mangle)]
pub extern "C" fn l32_write(bodies: &[u64], line: &mut [u16]) -> u32
    ensures { WriteAnswer bodies.now line.old line.new result }
{
    exports::l32_write(bodies, line)
}

// The bodies of the eighty words of the line, read by a port over scrambling over RS(528,514); answers the symbols mended.
#[unsafe(no_mangle)]
pub extern "C" fn l32_read(line: &mut [u16], bodies: &mut [u64]) -> u32
    ensures { ReadAnswer line.old bodies.old line.new bodies.new result }
{
    exports::l32_read(line, bodies)
}
