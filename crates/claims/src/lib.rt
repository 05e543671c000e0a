// What is claimed of the engine, and the wrong engines that fall by it. There is no code here.
#![tactic(auto)]
