// What a reader of sets can rely on: theorems about the definitions. There is no code here.
#![tactic(auto)]
