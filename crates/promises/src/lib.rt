// Where the two halves meet: the program that runs does what the definitions say, and servers that do are together as if there
// were one.
#![tactic(auto)]

ghost use Rattle.memory.specs.Program.{ServerAsIfOne};

// Whatever happens to a group of these servers, the answers can be explained by one server doing one command at a time.
pub fn server_is_linearizable()
    ensures { ServerAsIfOne }
{}
