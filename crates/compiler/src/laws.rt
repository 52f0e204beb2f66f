// What is proved of the images that the compiler gives. A call of a function here gives its law, and does nothing.
ghost use Rattle.compiler.specs.BuiltNodes.{BuiltProgramsMeet};
ghost use Rattle.compiler.specs.Compiled.{ImagesMeet};

/// The image of forms that are served does what their program does: on every input, with every size of heap and stacks,
/// after every number of instructions. Its output is a prefix of the program's, it ends only as the program does, in time,
/// never by a trap, and in each of its states there are values alone where values stand.
#[tactic(auto, using(crate::proofs::Law::forms_meet))]
pub fn images_meet_their_programs()
    ensures { ImagesMeet }
{}

/// A lawful program that isn't too large and whose nodes are all built holds no function of the prelude, and the image of
/// its forms does what the program does.
pub fn built_programs_meet()
    ensures { BuiltProgramsMeet }
{}
