//! What each adapter adds to a module, and the module that takes adapters one after another: what an adapter names is
//! imported, its functions are compiled, and the module keeps what is promised of all of them.
#![tactic(auto)]

mod dfg;
mod importing;
mod laws;
mod module;
mod taken;
mod typed;

pub use dfg::ComponentDfg;
pub use laws::laws_of_forms;
pub use module::Module;
