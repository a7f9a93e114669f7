//! The legend of a picture.

/// Three columns of signs, and what each stands for.
#[rattlefmt::skip]
pub(super) const LEGEND: &str = "\
<circle class=\"start c0\" cx=\"26\" cy=\"14\" r=\"5\"/>\n\
<circle class=\"told c0\" cx=\"26\" cy=\"36\" r=\"5\"/>\n\
<text class=\"clock up\" x=\"17\" y=\"62\">3</text>\n\
<text class=\"clock\" x=\"29\" y=\"62\">3</text>\n\
<polygon class=\"done c0\" points=\"26,74 32,80 26,86 20,80\"/>\n\
<text class=\"mute mid\" x=\"26\" y=\"105\">#2</text>\n\
<rect class=\"ask c0\" x=\"302\" y=\"6\" width=\"28\" height=\"16\"/>\n\
<rect class=\"answer c0\" x=\"302\" y=\"28\" width=\"28\" height=\"16\"/>\n\
<rect class=\"band\" x=\"302\" y=\"50\" width=\"28\" height=\"16\"/>\n\
<rect class=\"job c0\" x=\"302\" y=\"72\" width=\"28\" height=\"16\"/>\n\
<polygon class=\"ran\" points=\"314,71 322,71 318,77\"/>\n\
<polyline class=\"tick\" points=\"306,96 306,108\"/>\n\
<polyline class=\"tick\" points=\"320,98 328,106\"/>\n\
<polyline class=\"tick\" points=\"320,106 328,98\"/>\n\
<polyline class=\"packet c0\" points=\"592,8 614,8 614,14\"/>\n\
<polygon class=\"head c0\" points=\"614,21 610,14 618,14\"/>\n\
<rect class=\"job c0 bad\" x=\"592\" y=\"28\" width=\"28\" height=\"16\"/>\n\
<polyline class=\"back c0\" points=\"606,66 606,54\"/>\n\
<polygon class=\"head c0\" points=\"606,50 602,57 610,57\"/>\n\
<polyline class=\"packet c0\" points=\"592,80 619,80\"/>\n\
<polyline class=\"edge c0\" points=\"615,75 620,80 615,85\"/>\n\
<text class=\"key\" x=\"50\" y=\"18\">a Start comes; &gt;2 is its floor</text>\n\
<text class=\"key\" x=\"50\" y=\"40\">a proposal comes, with its stamp</text>\n\
<text class=\"key\" x=\"50\" y=\"62\">the clock after it, bold where it rose</text>\n\
<text class=\"key\" x=\"50\" y=\"84\">a delivery, with the final stamp</text>\n\
<text class=\"key\" x=\"50\" y=\"106\">the step Deliver(2)</text>\n\
<text class=\"key\" x=\"340\" y=\"18\">a request, until it is settled</text>\n\
<text class=\"key\" x=\"340\" y=\"40\">its reply, until it is collected</text>\n\
<text class=\"key\" x=\"340\" y=\"62\">a layer, from Take to Settle</text>\n\
<text class=\"key\" x=\"340\" y=\"84\">its requests; the notch is Run</text>\n\
<text class=\"key\" x=\"340\" y=\"106\">a connection opens, closes</text>\n\
<text class=\"key\" x=\"630\" y=\"18\">a packet, from its send to its receipt</text>\n\
<text class=\"key\" x=\"630\" y=\"40\">starved: the request found no memory</text>\n\
<text class=\"key\" x=\"630\" y=\"62\">a reply goes to its connection</text>\n\
<text class=\"key\" x=\"630\" y=\"84\">under way at the end</text>\n\
";
