// What a reader can rely on: theorems about the walk's definition. There is no code here.
#![tactic(auto)]
