// Sound stays sound: every call leaves a sound image and a sound list, over the written rules. There is no code here.
#![tactic(auto)]
