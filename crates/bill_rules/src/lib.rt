// Inner. No code: the definitions of the monthly bill (document 02, T-01) stand in specs/, its laws in proofs/.
#![tactic(auto)]
