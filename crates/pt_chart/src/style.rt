//! How the parts of a drawing look.

/// The description of a chart for screen readers, the shapes that several parts have, the colours, light and dark, and
/// the legend.
pub(crate) const STYLE: &str = "\
<desc id=\"desc\">Each process is a column, by desk. Events are in rows, oldest first: the births in front in one row, \
and a receipt beside its sending if nothing is between them. An arrow is a letter, from its sending to its receipt, with \
what it says. An open head is a letter in flight. A box is a birth, below its parent's pid, a dot an item taken, a square \
a change of trap_exit, a struck circle a call that failed, a cross an exit with its reason.</desc>\n\
<defs>\n\
<rect id=\"birth\" x=\"-8\" y=\"-5\" width=\"16\" height=\"10\" rx=\"4\"/>\n\
<circle id=\"t\" r=\"4\"/>\n\
<rect id=\"traps\" x=\"-4\" y=\"-4\" width=\"8\" height=\"8\"/>\n\
<rect id=\"free\" x=\"-4\" y=\"-4\" width=\"8\" height=\"8\"/>\n\
<path id=\"refused\" d=\"M-5 0A5 5 0 0 1 5 0A5 5 0 0 1 -5 0M-3.5 3.5L3.5 -3.5\"/>\n\
<path id=\"end\" d=\"M-6 -6L6 6M-6 6L6 -6\"/>\n\
<marker id=\"m\" class=\"m\" viewBox=\"0 0 8 8\" refX=\"8\" refY=\"4\" markerWidth=\"6\" markerHeight=\"6\" \
orient=\"auto\"><path d=\"M0 0L8 4L0 8z\"/></marker>\n\
<marker id=\"mf\" class=\"m f\" viewBox=\"0 0 8 8\" refX=\"8\" refY=\"4\" markerWidth=\"6\" markerHeight=\"6\" \
orient=\"auto\"><path d=\"M0 0L8 4L0 8\"/></marker>\n\
<marker id=\"x\" class=\"x\" viewBox=\"0 0 8 8\" refX=\"8\" refY=\"4\" markerWidth=\"6\" markerHeight=\"6\" \
orient=\"auto\"><path d=\"M0 0L8 4L0 8z\"/></marker>\n\
<marker id=\"xf\" class=\"x f\" viewBox=\"0 0 8 8\" refX=\"8\" refY=\"4\" markerWidth=\"6\" markerHeight=\"6\" \
orient=\"auto\"><path d=\"M0 0L8 4L0 8\"/></marker>\n\
<marker id=\"l\" class=\"l\" viewBox=\"0 0 8 8\" refX=\"8\" refY=\"4\" markerWidth=\"6\" markerHeight=\"6\" \
orient=\"auto\"><path d=\"M0 0L8 4L0 8z\"/></marker>\n\
<marker id=\"lf\" class=\"l f\" viewBox=\"0 0 8 8\" refX=\"8\" refY=\"4\" markerWidth=\"6\" markerHeight=\"6\" \
orient=\"auto\"><path d=\"M0 0L8 4L0 8\"/></marker>\n\
<marker id=\"o\" class=\"o\" viewBox=\"0 0 8 8\" refX=\"8\" refY=\"4\" markerWidth=\"6\" markerHeight=\"6\" \
orient=\"auto\"><path d=\"M0 0L8 4L0 8z\"/></marker>\n\
<marker id=\"of\" class=\"o f\" viewBox=\"0 0 8 8\" refX=\"8\" refY=\"4\" markerWidth=\"6\" markerHeight=\"6\" \
orient=\"auto\"><path d=\"M0 0L8 4L0 8\"/></marker>\n\
<marker id=\"q\" class=\"q\" viewBox=\"0 0 8 8\" refX=\"8\" refY=\"4\" markerWidth=\"6\" markerHeight=\"6\" \
orient=\"auto\"><path d=\"M0 0L8 4L0 8z\"/></marker>\n\
<marker id=\"qf\" class=\"q f\" viewBox=\"0 0 8 8\" refX=\"8\" refY=\"4\" markerWidth=\"6\" markerHeight=\"6\" \
orient=\"auto\"><path d=\"M0 0L8 4L0 8\"/></marker>\n\
</defs>\n\
<style>\n\
text{font:10px ui-monospace,monospace;fill:#59636e;stroke:transparent;stroke-width:22px;pointer-events:all}\n\
text:hover{fill:#0b5cad}\n\
text[class]{fill:#1f2328;paint-order:stroke;stroke:#fff;stroke-width:3px;stroke-linejoin:round}\n\
path,use,text[class]{pointer-events:none}\n\
text.n{font-size:11px;font-weight:bold;text-anchor:middle;pointer-events:auto}\n\
.e{text-anchor:end} .c{text-anchor:middle} text.desk{fill:#59636e}\n\
.page{fill:#fff} .band0{fill:#f6f8fa} .band1{fill:#fff}\n\
.before{stroke:#8c959f;stroke-dasharray:2 3;fill:none} .life{stroke:#8c959f;stroke-width:4}\n\
.linked{stroke:currentColor;stroke-width:1.5;stroke-dasharray:8 3}\n\
#birth,#free{fill:#fff;stroke:#1f2328} #t,#traps{fill:#1f2328}\n\
#end,#refused{fill:none;stroke:#b00020;stroke-width:2}\n\
.m{color:#0b5cad} .x{color:#b00020} .l,.linked{color:#1a7f37} .o{color:#8a5200} .q{color:#6a4fa0}\n\
text.m,text.x,text.l,text.o,text.q{fill:currentColor}\n\
path.m,path.x,path.l,path.o,path.q{fill:none;stroke:currentColor;stroke-width:1.5}\n\
path.l{stroke-dasharray:8 3} path.o{stroke-dasharray:3 3} path.q{stroke-dasharray:1 3}\n\
path.m{marker-end:url(#m)} path.m.f{marker-end:url(#mf)}\n\
path.x{marker-end:url(#x)} path.x.f{marker-end:url(#xf)}\n\
path.l{marker-end:url(#l)} path.l.f{marker-end:url(#lf)}\n\
path.o{marker-end:url(#o)} path.o.f{marker-end:url(#of)}\n\
path.q{marker-end:url(#q)} path.q.f{marker-end:url(#qf)}\n\
marker path{fill:currentColor} marker.f path{fill:none;stroke:currentColor}\n\
@media(prefers-color-scheme:dark){\n\
text{fill:#9198a1} text:hover{fill:#6cb6ff} text[class]{fill:#e6edf3;stroke:#0d1117} text.desk{fill:#9198a1}\n\
.page{fill:#0d1117} .band0{fill:#161b22} .band1{fill:#0d1117}\n\
.before,.life{stroke:#656c76}\n\
#birth,#free{fill:#0d1117;stroke:#e6edf3} #t,#traps{fill:#e6edf3} #end,#refused{stroke:#ff7b88}\n\
text.m,text.x,text.l,text.o,text.q{fill:currentColor}\n\
.m{color:#6cb6ff} .x{color:#ff7b88} .l,.linked{color:#57c46b} .o{color:#e0a458} .q{color:#b79cf0}\n\
}\n\
</style>\n\
<rect class=\"page\" x=\"-6\" width=\"100%\" height=\"100%\"/>\n\
<path class=\"m\" d=\"M8 14H28\"/><text class=\"k\" x=\"32\" y=\"18\">message</text>\n\
<path class=\"x\" d=\"M87 14H107\"/><text class=\"k\" x=\"111\" y=\"18\">exit</text>\n\
<path class=\"l\" d=\"M164 14H184\"/><text class=\"k\" x=\"188\" y=\"18\">link</text>\n\
<path class=\"o\" d=\"M8 30H28\"/><text class=\"k\" x=\"32\" y=\"34\">monitor</text>\n\
<path class=\"q\" d=\"M87 30H107\"/><text class=\"k\" x=\"111\" y=\"34\">question</text>\n\
<path class=\"m f\" d=\"M164 30H184\"/><text class=\"k\" x=\"188\" y=\"34\">in flight</text>\n\
<use href=\"#birth\" x=\"16\" y=\"46\"/><text class=\"k\" x=\"28\" y=\"50\">spawned</text>\n\
<use href=\"#t\" x=\"93\" y=\"46\"/><text class=\"k\" x=\"102\" y=\"50\">item taken</text>\n\
<use href=\"#traps\" x=\"170\" y=\"46\"/><text class=\"k\" x=\"179\" y=\"50\">traps exits</text>\n\
<use href=\"#refused\" x=\"16\" y=\"62\"/><text class=\"k\" x=\"28\" y=\"66\">refused</text>\n\
<use href=\"#end\" x=\"93\" y=\"62\"/><text class=\"k\" x=\"102\" y=\"66\">exit reason</text>\n";
