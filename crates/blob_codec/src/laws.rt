ghost use Rattle.blob_codec.specs.Laws.{ProgramsAreSpelled, ProgramsAreRead, ProgramsHaveOneSpelling, ProgramsDiffer, ProgramsOrFaults};
ghost use Rattle.blob_codec.specs.Laws.{ContainersAreSpelled, ContainersAreRead, ContainersHaveOneSpelling, ContainersDiffer, ContainersOrFaults};

/// Reading a program is the grammar of programs, both ways.
pub fn programs_are_read()
    // What is read is in the grammar, spelled by exactly these bytes.
    ensures spelled { ProgramsAreSpelled }
    // What is in the grammar is read.
    ensures read { ProgramsAreRead }
    // No two lists of bytes are read as one program.
    ensures one_spelling { ProgramsHaveOneSpelling }
    // No spelling is that of two programs.
    ensures one_program { ProgramsDiffer }
    // A fault comes exactly where the bytes aren't in the grammar.
    ensures faults { ProgramsOrFaults }
{}

/// Reading a container is the grammar of containers, both ways.
pub fn containers_are_read()
    // What is read is in the grammar, spelled by exactly these bytes.
    ensures spelled { ContainersAreSpelled }
    // What is in the grammar is read.
    ensures read { ContainersAreRead }
    // No two lists of bytes are read as one container.
    ensures one_spelling { ContainersHaveOneSpelling }
    // No spelling is that of two containers.
    ensures one_container { ContainersDiffer }
    // A fault comes exactly where the bytes aren't in the grammar.
    ensures faults { ContainersOrFaults }
{}
