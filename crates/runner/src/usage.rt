// How the program is called.
use std::io;

pub(crate) fn usage(to: &impl Print) -> io::Result<()> {
    to.write_all(b"usage: runner [--unchecked] IMAGE [PARAMETER...] [-- WORD...]\n")?;
    to.write_all(
        b"Checks the automaton in the file IMAGE, starts it with the parameters in the order of their variables,\n",
    )?;
    to.write_all(
        b"and makes steps with the words of the script until one is refused. Each step's line has its state, its\n",
    )?;
    to.write_all(
        b"label, the next state, the units used and the words read; the last lines the refusal and the store.\n",
    )?;
    to.write_all(
        b"With --unchecked it goes on where check refuses. Parameters and words are numbers of 32 bits.\n",
    )
}
