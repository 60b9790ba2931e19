//! The legends of pictures, as the files of picture/ have them: tests/gate/picture_parts.py writes this.

/// The legend of a run or record.
pub(crate) const LEGEND: &str = "<text class=\"name\" x=\"8\" y=\"19\">stages</text>\n\
<path class=\"idle\" d=\"M52 16L78 16\"/>\n\
<text class=\"key\" x=\"84\" y=\"19\">idle</text>\n\
<rect class=\"doorway\" x=\"126\" y=\"9\" width=\"26\" height=\"14\"/>\n\
<text class=\"key\" x=\"158\" y=\"19\">doorway: takes a ticket</text>\n\
<rect class=\"waiting\" x=\"314\" y=\"9\" width=\"26\" height=\"14\"/>\n\
<text class=\"key\" x=\"346\" y=\"19\">waits (behind whom)</text>\n\
<rect class=\"inside\" x=\"478\" y=\"4\" width=\"26\" height=\"24\"/>\n\
<text class=\"key\" x=\"510\" y=\"19\">inside: reads, writes the store</text>\n\
<rect class=\"leaving\" x=\"714\" y=\"12\" width=\"26\" height=\"8\"/>\n\
<text class=\"key\" x=\"746\" y=\"19\">leaving</text>\n\
<rect class=\"settling\" x=\"806\" y=\"9\" width=\"26\" height=\"14\"/>\n\
<text class=\"key\" x=\"838\" y=\"19\">failed: its unit settles</text>\n\
<rect class=\"down\" x=\"1000\" y=\"9\" width=\"26\" height=\"14\"/>\n\
<text class=\"key\" x=\"1032\" y=\"19\">down</text>\n\
<text class=\"name\" x=\"8\" y=\"45\">signs</text>\n\
<path class=\"sign\" d=\"M54 37l8 5l-8 5z\"/>\n\
<text class=\"key\" x=\"68\" y=\"45\">call</text>\n\
<rect class=\"sign\" x=\"111\" y=\"38\" width=\"7\" height=\"8\"/>\n\
<text class=\"key\" x=\"124\" y=\"45\">answer</text>\n\
<rect class=\"pill\" x=\"177\" y=\"34\" width=\"16\" height=\"16\" rx=\"8\"/>\n\
<text class=\"in-w\" x=\"185\" y=\"45\">0</text>\n\
<text class=\"key\" x=\"198\" y=\"45\">taken at place 0, and it changed the store</text>\n\
<rect class=\"pill-o\" x=\"467\" y=\"34\" width=\"16\" height=\"16\" rx=\"8\"/>\n\
<text class=\"in\" x=\"475\" y=\"45\">1</text>\n\
<text class=\"key\" x=\"488\" y=\"45\">taken, and it changed nothing</text>\n\
<path class=\"frees\" d=\"M684 33v8\"/>\n\
<path class=\"tip\" d=\"M684 49l-4 -7h8z\"/>\n\
<text class=\"key\" x=\"694\" y=\"45\">no longer waits for it</text>\n\
<path class=\"cross\" d=\"M843 36l12 12m0 -12l-12 12\"/>\n\
<text class=\"key\" x=\"860\" y=\"45\">fails</text>\n\
<path class=\"diamond\" d=\"M916 33l9 9l-9 9l-9 -9z\"/>\n\
<text class=\"in\" x=\"916\" y=\"45\">1</text>\n\
<text class=\"key\" x=\"930\" y=\"45\">torn bit settled at 1</text>\n\
<circle class=\"ring\" cx=\"1078\" cy=\"42\" r=\"5\"/>\n\
<text class=\"key\" x=\"1088\" y=\"45\">restarts</text>\n\
<path class=\"back\" d=\"M53 64l9 -6v12z\"/>\n\
<text class=\"key\" x=\"68\" y=\"67\">withdraws</text>\n\
<path class=\"no-sign\" d=\"M139 64a6 6 0 1 0 12 0a6 6 0 1 0 -12 0m2 4l8 -8\"/>\n\
<text class=\"key\" x=\"156\" y=\"67\">refused</text>\n\
<path class=\"glass\" d=\"M215 57h12l-12 14h12z\"/>\n\
<text class=\"key\" x=\"232\" y=\"67\">go gave up after 65536 steps</text>\n\
<rect class=\"shade\" x=\"417\" y=\"56\" width=\"24\" height=\"16\"/>\n\
<text class=\"key\" x=\"446\" y=\"67\">a process is inside</text>\n\
<path class=\"far\" d=\"M571 64L595 64\"/>\n\
<text class=\"key\" x=\"600\" y=\"67\">more events than pixels</text>\n\
<text class=\"name\" x=\"8\" y=\"91\">words</text>\n\
<text class=\"key strong\" x=\"52\" y=\"91\">wait 2</text>\n\
<text class=\"key\" x=\"98\" y=\"91\">its ticket is 2</text>\n\
<text class=\"key strong\" x=\"210\" y=\"91\">behind 0,1</text>\n\
<text class=\"key\" x=\"280\" y=\"91\">these are served before it</text>\n\
<text class=\"key strong\" x=\"458\" y=\"91\">2 choosing</text>\n\
<text class=\"key\" x=\"528\" y=\"91\">2 may come before it</text>\n\
<text class=\"key strong\" x=\"670\" y=\"91\">taken 0 done</text>\n\
<text class=\"key\" x=\"752\" y=\"91\">number 0 of the history, reply done</text>\n\
<text class=\"key strong\" x=\"984\" y=\"91\">N</text>\n\
<text class=\"key\" x=\"1012\" y=\"91\">events between two columns</text>";

/// The legend of a trace.
pub(crate) const TRACE_LEGEND: &str = "<text class=\"name\" x=\"8\" y=\"19\">stages</text>\n\
<path class=\"idle\" d=\"M52 16L78 16\"/>\n\
<text class=\"key\" x=\"84\" y=\"19\">idle</text>\n\
<rect class=\"doorway\" x=\"126\" y=\"9\" width=\"26\" height=\"14\"/>\n\
<text class=\"key\" x=\"158\" y=\"19\">doorway: gets in line</text>\n\
<rect class=\"waiting\" x=\"314\" y=\"9\" width=\"26\" height=\"14\"/>\n\
<text class=\"key\" x=\"346\" y=\"19\">waits</text>\n\
<rect class=\"inside\" x=\"408\" y=\"4\" width=\"26\" height=\"24\"/>\n\
<text class=\"key\" x=\"440\" y=\"19\">inside the critical section</text>\n\
<rect class=\"leaving\" x=\"638\" y=\"12\" width=\"26\" height=\"8\"/>\n\
<text class=\"key\" x=\"670\" y=\"19\">leaving</text>\n\
<text class=\"name\" x=\"8\" y=\"45\">signs</text>\n\
<path class=\"sign\" d=\"M54 37l8 5l-8 5z\"/>\n\
<text class=\"key\" x=\"68\" y=\"45\">call</text>\n\
<rect class=\"sign\" x=\"111\" y=\"38\" width=\"7\" height=\"8\"/>\n\
<text class=\"key\" x=\"124\" y=\"45\">answer</text>\n\
<rect class=\"bad\" x=\"181\" y=\"34\" width=\"14\" height=\"16\"/>\n\
<text class=\"key\" x=\"202\" y=\"45\">the bad entry</text>\n\
<rect class=\"shade\" x=\"354\" y=\"34\" width=\"24\" height=\"16\"/>\n\
<text class=\"key\" x=\"383\" y=\"45\">a process is inside</text>\n\
<path class=\"far\" d=\"M521 42L545 42\"/>\n\
<text class=\"key\" x=\"550\" y=\"45\">more entries than pixels</text>\n\
<text class=\"name\" x=\"8\" y=\"69\">words</text>\n\
<text class=\"key strong\" x=\"52\" y=\"69\">N</text>\n\
<text class=\"key\" x=\"80\" y=\"69\">entries between two columns</text>";

/// The legend of a run or record whose overlapped reads are shown.
pub(crate) const READS_LEGEND: &str = "<text class=\"name\" x=\"8\" y=\"19\">stages</text>\n\
<path class=\"idle\" d=\"M52 16L78 16\"/>\n\
<text class=\"key\" x=\"84\" y=\"19\">idle</text>\n\
<rect class=\"doorway\" x=\"126\" y=\"9\" width=\"26\" height=\"14\"/>\n\
<text class=\"key\" x=\"158\" y=\"19\">doorway: takes a ticket</text>\n\
<rect class=\"waiting\" x=\"314\" y=\"9\" width=\"26\" height=\"14\"/>\n\
<text class=\"key\" x=\"346\" y=\"19\">waits (behind whom)</text>\n\
<rect class=\"inside\" x=\"478\" y=\"4\" width=\"26\" height=\"24\"/>\n\
<text class=\"key\" x=\"510\" y=\"19\">inside: reads, writes the store</text>\n\
<rect class=\"leaving\" x=\"714\" y=\"12\" width=\"26\" height=\"8\"/>\n\
<text class=\"key\" x=\"746\" y=\"19\">leaving</text>\n\
<rect class=\"settling\" x=\"806\" y=\"9\" width=\"26\" height=\"14\"/>\n\
<text class=\"key\" x=\"838\" y=\"19\">failed: its unit settles</text>\n\
<rect class=\"down\" x=\"1000\" y=\"9\" width=\"26\" height=\"14\"/>\n\
<text class=\"key\" x=\"1032\" y=\"19\">down</text>\n\
<text class=\"name\" x=\"8\" y=\"45\">signs</text>\n\
<path class=\"sign\" d=\"M54 37l8 5l-8 5z\"/>\n\
<text class=\"key\" x=\"68\" y=\"45\">call</text>\n\
<rect class=\"sign\" x=\"111\" y=\"38\" width=\"7\" height=\"8\"/>\n\
<text class=\"key\" x=\"124\" y=\"45\">answer</text>\n\
<rect class=\"pill\" x=\"177\" y=\"34\" width=\"16\" height=\"16\" rx=\"8\"/>\n\
<text class=\"in-w\" x=\"185\" y=\"45\">0</text>\n\
<text class=\"key\" x=\"198\" y=\"45\">taken at place 0, and it changed the store</text>\n\
<rect class=\"pill-o\" x=\"467\" y=\"34\" width=\"16\" height=\"16\" rx=\"8\"/>\n\
<text class=\"in\" x=\"475\" y=\"45\">1</text>\n\
<text class=\"key\" x=\"488\" y=\"45\">taken, and it changed nothing</text>\n\
<path class=\"frees\" d=\"M684 33v8\"/>\n\
<path class=\"tip\" d=\"M684 49l-4 -7h8z\"/>\n\
<text class=\"key\" x=\"694\" y=\"45\">no longer waits for it</text>\n\
<path class=\"cross\" d=\"M843 36l12 12m0 -12l-12 12\"/>\n\
<text class=\"key\" x=\"860\" y=\"45\">fails</text>\n\
<path class=\"diamond\" d=\"M916 33l9 9l-9 9l-9 -9z\"/>\n\
<text class=\"in\" x=\"916\" y=\"45\">1</text>\n\
<text class=\"key\" x=\"930\" y=\"45\">torn bit settled at 1</text>\n\
<circle class=\"ring\" cx=\"1078\" cy=\"42\" r=\"5\"/>\n\
<text class=\"key\" x=\"1088\" y=\"45\">restarts</text>\n\
<path class=\"back\" d=\"M53 64l9 -6v12z\"/>\n\
<text class=\"key\" x=\"68\" y=\"67\">withdraws</text>\n\
<path class=\"no-sign\" d=\"M139 64a6 6 0 1 0 12 0a6 6 0 1 0 -12 0m2 4l8 -8\"/>\n\
<text class=\"key\" x=\"156\" y=\"67\">refused</text>\n\
<path class=\"glass\" d=\"M215 57h12l-12 14h12z\"/>\n\
<text class=\"key\" x=\"232\" y=\"67\">go gave up after 65536 steps</text>\n\
<path class=\"open\" d=\"M418 60v6h22v-6\"/>\n\
<text class=\"key\" x=\"446\" y=\"67\">a read that a write of its bit overlapped</text>\n\
<rect class=\"shade\" x=\"709\" y=\"56\" width=\"24\" height=\"16\"/>\n\
<text class=\"key\" x=\"738\" y=\"67\">a process is inside</text>\n\
<path class=\"far\" d=\"M863 64L887 64\"/>\n\
<text class=\"key\" x=\"892\" y=\"67\">more events than pixels</text>\n\
<text class=\"name\" x=\"8\" y=\"91\">words</text>\n\
<text class=\"key strong\" x=\"52\" y=\"91\">wait 2</text>\n\
<text class=\"key\" x=\"98\" y=\"91\">its ticket is 2</text>\n\
<text class=\"key strong\" x=\"210\" y=\"91\">behind 0,1</text>\n\
<text class=\"key\" x=\"280\" y=\"91\">these are served before it</text>\n\
<text class=\"key strong\" x=\"458\" y=\"91\">2 choosing</text>\n\
<text class=\"key\" x=\"528\" y=\"91\">2 may come before it</text>\n\
<text class=\"key strong\" x=\"670\" y=\"91\">taken 0 done</text>\n\
<text class=\"key\" x=\"752\" y=\"91\">number 0 of the history, reply done</text>\n\
<text class=\"key strong\" x=\"984\" y=\"91\">N</text>\n\
<text class=\"key\" x=\"1012\" y=\"91\">events between two columns</text>\n\
<text class=\"key strong\" x=\"52\" y=\"109\">saw 0 ticket[1].2</text>\n\
<text class=\"key\" x=\"164\" y=\"109\">such a read of bit 2 of process 1's ticket gave 0</text>";

/// The legend of a run or record whose accesses are shown.
pub(crate) const ACCESS_LEGEND: &str = "<text class=\"name\" x=\"8\" y=\"19\">stages</text>\n\
<path class=\"idle\" d=\"M52 16L78 16\"/>\n\
<text class=\"key\" x=\"84\" y=\"19\">idle</text>\n\
<rect class=\"doorway\" x=\"126\" y=\"9\" width=\"26\" height=\"14\"/>\n\
<text class=\"key\" x=\"158\" y=\"19\">doorway: takes a ticket</text>\n\
<rect class=\"waiting\" x=\"314\" y=\"9\" width=\"26\" height=\"14\"/>\n\
<text class=\"key\" x=\"346\" y=\"19\">waits (behind whom)</text>\n\
<rect class=\"inside\" x=\"478\" y=\"4\" width=\"26\" height=\"24\"/>\n\
<text class=\"key\" x=\"510\" y=\"19\">inside: reads, writes the store</text>\n\
<rect class=\"leaving\" x=\"714\" y=\"12\" width=\"26\" height=\"8\"/>\n\
<text class=\"key\" x=\"746\" y=\"19\">leaving</text>\n\
<rect class=\"settling\" x=\"806\" y=\"9\" width=\"26\" height=\"14\"/>\n\
<text class=\"key\" x=\"838\" y=\"19\">failed: its unit settles</text>\n\
<rect class=\"down\" x=\"1000\" y=\"9\" width=\"26\" height=\"14\"/>\n\
<text class=\"key\" x=\"1032\" y=\"19\">down</text>\n\
<text class=\"name\" x=\"8\" y=\"45\">signs</text>\n\
<path class=\"sign\" d=\"M54 37l8 5l-8 5z\"/>\n\
<text class=\"key\" x=\"68\" y=\"45\">call</text>\n\
<rect class=\"sign\" x=\"111\" y=\"38\" width=\"7\" height=\"8\"/>\n\
<text class=\"key\" x=\"124\" y=\"45\">answer</text>\n\
<rect class=\"pill\" x=\"177\" y=\"34\" width=\"16\" height=\"16\" rx=\"8\"/>\n\
<text class=\"in-w\" x=\"185\" y=\"45\">0</text>\n\
<text class=\"key\" x=\"198\" y=\"45\">taken at place 0, and it changed the store</text>\n\
<rect class=\"pill-o\" x=\"467\" y=\"34\" width=\"16\" height=\"16\" rx=\"8\"/>\n\
<text class=\"in\" x=\"475\" y=\"45\">1</text>\n\
<text class=\"key\" x=\"488\" y=\"45\">taken, and it changed nothing</text>\n\
<path class=\"frees\" d=\"M684 33v8\"/>\n\
<path class=\"tip\" d=\"M684 49l-4 -7h8z\"/>\n\
<text class=\"key\" x=\"694\" y=\"45\">no longer waits for it</text>\n\
<path class=\"cross\" d=\"M843 36l12 12m0 -12l-12 12\"/>\n\
<text class=\"key\" x=\"860\" y=\"45\">fails</text>\n\
<path class=\"diamond\" d=\"M916 33l9 9l-9 9l-9 -9z\"/>\n\
<text class=\"in\" x=\"916\" y=\"45\">1</text>\n\
<text class=\"key\" x=\"930\" y=\"45\">torn bit settled at 1</text>\n\
<circle class=\"ring\" cx=\"1078\" cy=\"42\" r=\"5\"/>\n\
<text class=\"key\" x=\"1088\" y=\"45\">restarts</text>\n\
<path class=\"back\" d=\"M53 64l9 -6v12z\"/>\n\
<text class=\"key\" x=\"68\" y=\"67\">withdraws</text>\n\
<path class=\"no-sign\" d=\"M139 64a6 6 0 1 0 12 0a6 6 0 1 0 -12 0m2 4l8 -8\"/>\n\
<text class=\"key\" x=\"156\" y=\"67\">refused</text>\n\
<path class=\"glass\" d=\"M215 57h12l-12 14h12z\"/>\n\
<text class=\"key\" x=\"232\" y=\"67\">go gave up after 65536 steps</text>\n\
<rect class=\"shade\" x=\"417\" y=\"56\" width=\"24\" height=\"16\"/>\n\
<text class=\"key\" x=\"446\" y=\"67\">a process is inside</text>\n\
<path class=\"far\" d=\"M571 64L595 64\"/>\n\
<text class=\"key\" x=\"600\" y=\"67\">more events than pixels</text>\n\
<text class=\"name\" x=\"8\" y=\"91\">words</text>\n\
<text class=\"key strong\" x=\"52\" y=\"91\">wait 2</text>\n\
<text class=\"key\" x=\"98\" y=\"91\">its ticket is 2</text>\n\
<text class=\"key strong\" x=\"210\" y=\"91\">behind 0,1</text>\n\
<text class=\"key\" x=\"280\" y=\"91\">these are served before it</text>\n\
<text class=\"key strong\" x=\"458\" y=\"91\">2 choosing</text>\n\
<text class=\"key\" x=\"528\" y=\"91\">2 may come before it</text>\n\
<text class=\"key strong\" x=\"670\" y=\"91\">taken 0 done</text>\n\
<text class=\"key\" x=\"752\" y=\"91\">number 0 of the history, reply done</text>\n\
<text class=\"key strong\" x=\"984\" y=\"91\">N</text>\n\
<text class=\"key\" x=\"1012\" y=\"91\">events between two columns</text>\n\
<text class=\"key\" x=\"8\" y=\"124\">access</text>\n\
<rect class=\"write\" x=\"52\" y=\"106\" width=\"92\" height=\"28\"/>\n\
<text class=\"move\" x=\"56\" y=\"118\">write 1</text>\n\
<text class=\"cell\" x=\"56\" y=\"130\">0.ticket.1.2</text>\n\
<text class=\"key\" x=\"150\" y=\"118\">a write,</text>\n\
<text class=\"key\" x=\"150\" y=\"130\">begin to end</text>\n\
<rect class=\"read\" x=\"236\" y=\"106\" width=\"92\" height=\"28\"/>\n\
<text class=\"move\" x=\"240\" y=\"118\">read</text>\n\
<text class=\"cell\" x=\"240\" y=\"130\">0.ticket.1.2</text>\n\
<text class=\"move\" x=\"332\" y=\"118\">&#8594; 0</text>\n\
<text class=\"key\" x=\"360\" y=\"118\">a read</text>\n\
<text class=\"key\" x=\"360\" y=\"130\">that gives 0</text>\n\
<rect class=\"overlapped\" x=\"446\" y=\"106\" width=\"92\" height=\"28\"/>\n\
<text class=\"move\" x=\"450\" y=\"118\">read</text>\n\
<text class=\"cell\" x=\"450\" y=\"130\">0.ticket.1.2</text>\n\
<text class=\"saw\" x=\"542\" y=\"118\">&#8594; 0 &#8800; 1</text>\n\
<text class=\"key\" x=\"598\" y=\"118\">a read that a write overlaps:</text>\n\
<text class=\"key\" x=\"598\" y=\"130\">gives 0, last written is 1</text>\n\
<path class=\"tie\" d=\"M800 109L800 131\"/>\n\
<path class=\"dot\" d=\"M797 109a3 3 0 1 0 6 0a3 3 0 1 0 -6 0\"/>\n\
<path class=\"dot\" d=\"M797 131a3 3 0 1 0 6 0a3 3 0 1 0 -6 0\"/>\n\
<text class=\"key\" x=\"812\" y=\"118\">joins overlapping accesses,</text>\n\
<text class=\"key\" x=\"812\" y=\"130\">one of which writes</text>\n\
<text class=\"key\" x=\"1020\" y=\"118\">0.ticket.1.2: process 0's</text>\n\
<text class=\"key\" x=\"1020\" y=\"130\">ticket, bit 1, for reader 2</text>\n\
<rect class=\"write unended\" x=\"52\" y=\"144\" width=\"92\" height=\"28\"/>\n\
<text class=\"move\" x=\"56\" y=\"156\">write 1</text>\n\
<text class=\"cell\" x=\"56\" y=\"168\">0.ticket.1.2</text>\n\
<text class=\"key\" x=\"150\" y=\"156\">still open where</text>\n\
<text class=\"key\" x=\"150\" y=\"168\">the part ends</text>\n\
<text class=\"cell\" x=\"294\" y=\"154\">0.ticket</text>\n\
<path class=\"wave\" d=\"M294 170L334 170\"/>\n\
<text class=\"cell\" x=\"298\" y=\"168\">0</text>\n\
<path class=\"wave\" d=\"M334 157L334 171\"/>\n\
<rect class=\"unsure\" x=\"334\" y=\"157\" width=\"40\" height=\"14\"/>\n\
<path class=\"wave\" d=\"M374 157L374 171\"/>\n\
<path class=\"wave\" d=\"M374 158L414 158\"/>\n\
<text class=\"cell\" x=\"378\" y=\"168\">1</text>\n\
<text class=\"key\" x=\"422\" y=\"156\">the values of 0.ticket over time: 0, then 1;</text>\n\
<text class=\"key\" x=\"422\" y=\"168\">blue while a write is open</text>\n\
<rect class=\"write\" x=\"770\" y=\"144\" width=\"92\" height=\"28\"/>\n\
<text class=\"move\" x=\"774\" y=\"156\">write 1</text>\n\
<text class=\"cell\" x=\"774\" y=\"168\">0.ticket.1.2</text>\n\
<text class=\"move\" x=\"866\" y=\"156\">settle 0</text>\n\
<text class=\"key\" x=\"928\" y=\"156\">a torn write</text>\n\
<text class=\"key\" x=\"928\" y=\"168\">settled at 0</text>";

/// The legend of a trace whose accesses are shown.
pub(crate) const TRACE_ACCESS_LEGEND: &str = "<text class=\"name\" x=\"8\" y=\"19\">stages</text>\n\
<path class=\"idle\" d=\"M52 16L78 16\"/>\n\
<text class=\"key\" x=\"84\" y=\"19\">idle</text>\n\
<rect class=\"doorway\" x=\"126\" y=\"9\" width=\"26\" height=\"14\"/>\n\
<text class=\"key\" x=\"158\" y=\"19\">doorway: gets in line</text>\n\
<rect class=\"waiting\" x=\"314\" y=\"9\" width=\"26\" height=\"14\"/>\n\
<text class=\"key\" x=\"346\" y=\"19\">waits</text>\n\
<rect class=\"inside\" x=\"408\" y=\"4\" width=\"26\" height=\"24\"/>\n\
<text class=\"key\" x=\"440\" y=\"19\">inside the critical section</text>\n\
<rect class=\"leaving\" x=\"638\" y=\"12\" width=\"26\" height=\"8\"/>\n\
<text class=\"key\" x=\"670\" y=\"19\">leaving</text>\n\
<text class=\"name\" x=\"8\" y=\"45\">signs</text>\n\
<path class=\"sign\" d=\"M54 37l8 5l-8 5z\"/>\n\
<text class=\"key\" x=\"68\" y=\"45\">call</text>\n\
<rect class=\"sign\" x=\"111\" y=\"38\" width=\"7\" height=\"8\"/>\n\
<text class=\"key\" x=\"124\" y=\"45\">answer</text>\n\
<rect class=\"bad\" x=\"181\" y=\"34\" width=\"14\" height=\"16\"/>\n\
<text class=\"key\" x=\"202\" y=\"45\">the bad entry</text>\n\
<rect class=\"shade\" x=\"354\" y=\"34\" width=\"24\" height=\"16\"/>\n\
<text class=\"key\" x=\"383\" y=\"45\">a process is inside</text>\n\
<path class=\"far\" d=\"M521 42L545 42\"/>\n\
<text class=\"key\" x=\"550\" y=\"45\">more entries than pixels</text>\n\
<text class=\"name\" x=\"8\" y=\"69\">words</text>\n\
<text class=\"key strong\" x=\"52\" y=\"69\">N</text>\n\
<text class=\"key\" x=\"80\" y=\"69\">entries between two columns</text>\n\
<text class=\"key\" x=\"8\" y=\"102\">access</text>\n\
<rect class=\"write\" x=\"52\" y=\"84\" width=\"60\" height=\"28\"/>\n\
<text class=\"move\" x=\"56\" y=\"96\">write 1</text>\n\
<text class=\"cell\" x=\"56\" y=\"108\">flag[0]</text>\n\
<text class=\"key\" x=\"118\" y=\"96\">a write,</text>\n\
<text class=\"key\" x=\"118\" y=\"108\">begin to end</text>\n\
<rect class=\"read\" x=\"206\" y=\"84\" width=\"60\" height=\"28\"/>\n\
<text class=\"move\" x=\"210\" y=\"96\">read</text>\n\
<text class=\"cell\" x=\"210\" y=\"108\">flag[0]</text>\n\
<text class=\"move\" x=\"270\" y=\"96\">&#8594; 0</text>\n\
<text class=\"key\" x=\"298\" y=\"96\">a read</text>\n\
<text class=\"key\" x=\"298\" y=\"108\">that gives 0</text>\n\
<rect class=\"overlapped\" x=\"388\" y=\"84\" width=\"60\" height=\"28\"/>\n\
<text class=\"move\" x=\"392\" y=\"96\">read</text>\n\
<text class=\"cell\" x=\"392\" y=\"108\">flag[0]</text>\n\
<text class=\"saw\" x=\"452\" y=\"96\">&#8594; 0 &#8800; 1</text>\n\
<text class=\"key\" x=\"508\" y=\"96\">a read that a write overlaps:</text>\n\
<text class=\"key\" x=\"508\" y=\"108\">gives 0, last written is 1</text>\n\
<path class=\"tie\" d=\"M696 87L696 109\"/>\n\
<path class=\"dot\" d=\"M693 87a3 3 0 1 0 6 0a3 3 0 1 0 -6 0\"/>\n\
<path class=\"dot\" d=\"M693 109a3 3 0 1 0 6 0a3 3 0 1 0 -6 0\"/>\n\
<text class=\"key\" x=\"706\" y=\"96\">joins overlapping accesses,</text>\n\
<text class=\"key\" x=\"706\" y=\"108\">one of which writes</text>\n\
<rect class=\"write whole\" x=\"882\" y=\"84\" width=\"4\" height=\"28\"/>\n\
<text class=\"move\" x=\"889\" y=\"96\">set 1</text>\n\
<text class=\"cell\" x=\"889\" y=\"108\">flag[0]</text>\n\
<text class=\"key\" x=\"942\" y=\"96\">a whole access,</text>\n\
<text class=\"key\" x=\"942\" y=\"108\">in one step</text>\n\
<rect class=\"update whole\" x=\"1044\" y=\"84\" width=\"4\" height=\"28\"/>\n\
<text class=\"move\" x=\"1051\" y=\"96\">cas 0 1 &#8594; 0</text>\n\
<text class=\"cell\" x=\"1051\" y=\"108\">flag[0]</text>\n\
<text class=\"key\" x=\"1134\" y=\"96\">reads and</text>\n\
<text class=\"key\" x=\"1134\" y=\"108\">writes</text>\n\
<rect class=\"write unended\" x=\"52\" y=\"122\" width=\"60\" height=\"28\"/>\n\
<text class=\"move\" x=\"56\" y=\"134\">write 1</text>\n\
<text class=\"cell\" x=\"56\" y=\"146\">flag[0]</text>\n\
<text class=\"key\" x=\"118\" y=\"134\">still open where</text>\n\
<text class=\"key\" x=\"118\" y=\"146\">the part ends</text>\n\
<text class=\"cell\" x=\"262\" y=\"132\">flag[0]</text>\n\
<path class=\"wave\" d=\"M262 148L302 148\"/>\n\
<text class=\"cell\" x=\"266\" y=\"146\">0</text>\n\
<path class=\"wave\" d=\"M302 135L302 149\"/>\n\
<rect class=\"unsure\" x=\"302\" y=\"135\" width=\"40\" height=\"14\"/>\n\
<path class=\"wave\" d=\"M342 135L342 149\"/>\n\
<path class=\"wave\" d=\"M342 136L382 136\"/>\n\
<text class=\"cell\" x=\"346\" y=\"146\">1</text>\n\
<text class=\"key\" x=\"390\" y=\"134\">the values of flag[0] over time: 0, then 1;</text>\n\
<text class=\"key\" x=\"390\" y=\"146\">blue while a write is open</text>";
