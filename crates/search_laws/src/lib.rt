// Laws of the published search that a loop over it needs: children by number, and a run that goes on from where it stands. No code.
#![tactic(auto)]
